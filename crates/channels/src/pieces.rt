//! The lengths of the sends that wait in a channel.
ghost use Rattle.std.specs.Prelude.{◌≡◌, ◌^◌, ◌<◌, min, drop, IfSome, IfNone};
ghost use Rattle.channels.specs.Rings.{IsInFirst, IsPlainAt, size_of, pieces_left, plain_pieces, reach_pieces, pieces_from, drawn_in};

use std::alloc::Global;
use std::collections::VecDeque;

/// How many bytes and descriptors one send has, as it was sent.
#[derive(Clone, Copy)]
pub struct Piece {
    pub bytes: usize,
    pub fds: usize,
}

/// How many of the bytes asked one read can take, where `drawn` bytes of the first piece were drawn: it doesn't go on to one with
/// descriptors. It looks at no more pieces than bytes are asked.
pub(crate) fn reach_in(pieces: &VecDeque<Piece, Global>, drawn: usize, asked: usize) -> usize
    requires first { IsInFirst drawn pieces.now.items }
    requires few { size_of (pieces_left drawn pieces.now.items) < 2 ^ 63 }
    ensures { result ≡ min asked (reach_pieces (pieces_left drawn pieces.now.items)) }
{
    let Some(first) = pieces.front() else {
        return 0;
    };
    let mut reach = first.bytes - drawn;
    let mut at = 1;
    while reach < asked {
        let Some(bytes) = plain_at(pieces, at) else {
            break;
        };
        reach += bytes;
        at += 1;
    }
    asked.min(reach)
}

// How many bytes the piece at this place has. `None` where there is none, or one with descriptors.
fn plain_at(pieces: &VecDeque<Piece, Global>, at: usize) -> Option<usize>
    ensures some { IfSome result (λ bytes. IsPlainAt bytes at pieces.now.items) }
    ensures none { IfNone result (plain_pieces (drop at pieces.now.items) ≡ 0) }
{
    match pieces.get(at) {
        Some(piece) if piece.fds == 0 => Some(piece.bytes),
        _ => None,
    }
}

/// Takes off the pieces that are drawn to their end, where a read ends this many bytes behind the beginning of the first. Returns how
/// many bytes of the first that stays it drew.
pub(crate) fn draw_in(pieces: &mut VecDeque<Piece, Global>, end: usize) -> usize
    ensures pieces { pieces.new.items ≡ pieces_from end pieces.old.items }
    ensures drawn { result ≡ drawn_in end pieces.old.items }
{
    let mut drawn = end;
    while let Some(first) = pieces.front() {
        let bytes = first.bytes;
        if drawn < bytes {
            break;
        }
        drawn -= bytes;
        pieces.pop_front();
    }
    drawn
}
