//! Laws of the ledger. The statements are in `specs/Laws.antt`, and each holds of every launch and history.
ghost use Rattle.authority_laws.specs.Laws.{LedgerBegins, LedgerGoesOn, LedgerReports, LinesAreExact, RightsNeverGrow, SendsAreHeld, SendsAreNoted, EntryChangesOne, DuplicatesAreEqual, ReplacementsAreEqual, RightsAreLowered, OpensAreBounded, OpensStayOfWhatTheyAre, ReceivesAreSent, SendsAreNumbered, HeldIsTraced, TracedStays, TracedIsHandedOn, TracedIsHeld, TracedIsWithinRoot, FilesComeFromGrants, TablesAreRecorded, SightIsRecorded, LegalIsRecorded};

/// The ledger of no entry is the launch's, and that of one more entry is the ledger before it with the entry noted.
pub fn ledger_goes_on()
    ensures begins { LedgerBegins }
    ensures more { LedgerGoesOn }
{}

/// Who holds what is shown by the recorded entries: in the world of a legal history of a launch with proper grants, each
/// process's table has under each number what the ledger says, what the ledger says is held stands in the table of a live
/// process, and a process that is not live holds nothing.
pub fn ledger_reports()
    ensures { LedgerReports }
{}

/// Rights never grow: each descriptor that a process holds after an entry of a legal history names the open of one that the
/// same process held before that entry, or that the process held which made it at that entry, with no right that this one
/// lacked. Or it names the open that the process made last at that entry, with no right but those that a descriptor passes on
/// which the process held before. Or it names a process or an end of channels that the process made at that entry, and passes
/// on nothing. Or the first send carried it, with the same rights, that waited for a socket which the process held before. What a
/// send carries after an entry it carried before it, or the entry's process held it then, with the same rights.
pub fn rights_never_grow()
    ensures held { RightsNeverGrow }
    ensures sent { SendsAreHeld }
{}

/// An entry leaves what each process but its own holds, unless that isn't live after it and holds nothing, or the entry made
/// it, and it holds what the entry's process held. What the entry's process holds stays; or it holds nothing any more; or what
/// stands under one number changes, to nothing, to what stood under another number, to the same open with no right more, to the
/// open that it made, with rights of its type that were asked, or to a process or an end of channels that it made. Where it
/// made two ends, so it is under two numbers. Or under some numbers comes what the first send carried that waited for a socket.
pub fn entry_changes_one()
    ensures { EntryChangesOne }
{}

/// After a call of a legal history that succeeded at once its process holds exactly what the call's line in the ledger says, unless what
/// it lets go ends the process. Of a call that ends its process, by `proc_exit`, by a signal or with its last thread, the line alone
/// says that nothing is held, whoever is live.
pub fn lines_are_exact()
    ensures { LinesAreExact }
{}

/// A copy has the open and exactly the rights of what was copied, as they were at that entry. After an `fd_dup` of a legal
/// history that succeeded, its result, under which nothing stood, is a copy of the descriptor; after such an `fd_replace`
/// `to` is one of `from`, unless what is let go there ends the process. Under each other number stands what stood there.
pub fn copies_are_equal()
    ensures duplicates { DuplicatesAreEqual }
    ensures replacements { ReplacementsAreEqual }
{}

/// After an `fd_stat_put` with RIGHTS of a legal history that succeeded, the descriptor names the open that it named, with
/// exactly those of its rights that are asked. Under each other number stands what stood there.
pub fn rights_are_lowered()
    ensures { RightsAreLowered }
{}

/// After a `file_open` of a legal history that succeeded there stands under its result, under which nothing stood, the open
/// that it made, with exactly those of the rights asked that are of its type. Each is among those that the directory's
/// descriptor passed on at that entry, which had the right FILE_OPEN. Its open is of a file or a directory that was below that
/// directory before the entry, or of a new file, which a directory below it then has. Under each other number stands what stood there.
pub fn opens_are_bounded()
    ensures { OpensAreBounded }
{}

/// At each entry of a legal history an open that is there before and after it is after it of the same file, directory, standard
/// stream, channels or process as before. So the open of each traced descriptor is of what it was of when the launch granted it or
/// an entry opened or made it.
pub fn opens_stay_of_what_they_are()
    ensures entries { OpensStayOfWhatTheyAre }
    ensures traced { TracedStays }
{}

/// Each descriptor that a `sock_recv` of a legal history installs was carried by one send, in the same place of its list: the first
/// send that had not left the socket's channel. One earlier `sock_send` put it there, and its process held the descriptor then,
/// with the same open and the same rights, under the number in that place of the call's list. It stands under its number in the
/// reply unless the process isn't live after the entry.
pub fn receives_are_sent()
    ensures { ReceivesAreSent }
{}

/// The sends of a channel are numbered by the entries that put them there: where a channel is there before and after an entry of a
/// legal history, it has had one send more after it if the entry is an `fd_write` or a `sock_send` of a byte at least to it that
/// succeeded, and else as many. A channel that comes with an entry has had none.
pub fn sends_are_numbered()
    ensures { SendsAreNumbered }
{}

/// The ledger says of each send what it carried: each that waits in a channel of a legal history's world carries that, or nothing.
pub fn sends_are_noted()
    ensures { SendsAreNoted }
{}

/// Each descriptor that the ledger of a legal history says is held was granted by the launch; or copied, lowered or opened
/// through a directory's descriptor which the process held at that entry and which is traced itself, with no right that
/// this one does not pass on, and of what is below that directory; or the process that made the process held it; or it is
/// of a process or an end of channels that an entry made, and passes on nothing; or it was received, with the rights with
/// which a process held it, traced itself, under a number that its `sock_send` to the socket's channel lists. What is
/// traced is held. At each step of a trace what a process held comes to that process, to one that it made, or to one that received what it
/// had sent. The trace of a file, a directory or a standard stream begins with a grant, and what is traced has no
/// right but those that its grant has or passes on. Where an open that was made stands in place of the grant it passes on
/// nothing, and is of a process or an end of channels, or has no right at all. Each descriptor in a table of the history's
/// world is there by the ledger, and traced.
pub fn held_is_traced()
    ensures ledger { HeldIsTraced }
    ensures held { TracedIsHeld }
    ensures handed { TracedIsHandedOn }
    ensures rights { TracedIsWithinRoot }
    ensures files { FilesComeFromGrants }
    ensures tables { TablesAreRecorded }
{}

/// What a call may read in the world of a legal history is the clock, what is its process's own and its status, or it is
/// reached by a descriptor which the ledger says that its process holds. That has the rights needed, or the call names it and
/// needs no right at all; and it is traced.
pub fn sight_is_recorded()
    ensures { SightIsRecorded }
{}

/// At each point of a legal history of a launch with proper grants the ledger says who holds what, all that is held is traced,
/// of files, directories and standard streams to the launch's grants, its open is of what it was of when it came, what waits in
/// channels carries what the ledger says, and calls see by what is held. At each entry its process is left what the call's line
/// says, copies are equal, rights are lowered to those asked, opens are bounded, each open stays of what it is of, rights never
/// grow, what is sent was held, what is received was sent, in its place, and the numbers of sends count them.
pub fn legal_is_recorded()
    ensures { LegalIsRecorded }
{}
