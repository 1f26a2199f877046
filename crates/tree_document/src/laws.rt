//! Laws of tree documents.
ghost use Rattle.std.specs.Prelude.{◌≡◌, ◌<◌, ◌^◌, ◌↔◌, ℕ, List, [], length, map, Result, Ok, Err};
ghost use Rattle.abi_types.specs.declared.node.Times.{Times};
ghost use Rattle.tree_model.specs.Grants.{IsStartTree};
ghost use Rattle.tree_model.specs.Start.{root_tree};
ghost use Rattle.tree_model.specs.Tree.{IsTree, Tree};
ghost use Rattle.tree_records.specs.Paths.{path_bytes};
ghost use Rattle.tree_records.specs.Records.{Record, path_of};
ghost use Rattle.tree_document.specs.Building.{start};
ghost use Rattle.tree_document.specs.Documents.{AreAllowed, IsFaultyAt, Means, document};
ghost use Rattle.tree_document.specs.Limits.{KeepsLimits};
ghost use Rattle.tree_document.specs.Meaning.{meaning};
ghost use Rattle.tree_document.specs.Printing.{listing, printed};
ghost use Rattle.tree_document.specs.SameTrees.{IsSameOrLacking, IsSameTree};
ghost use Rattle.tree_document.specs.Views.{Gives};
ghost use Rattle.lists.specs.declared.stop.Stop.{Stop};
ghost use Rattle.tree_document.specs.declared.fault.TreeDocFault.{TreeDocFault};

/// A text means one tree, or is faulty at one byte, and never both. So what [`crate::read_tree`] returns is the only tree or
/// fault that there is for the text, unless memory ran out.
pub fn a_text_has_one_meaning()
    ensures tree { (times : Times) (bytes : List ℕ) (t u : Tree) → Means times bytes t → Means times bytes u → t ≡ u }
    ensures fault { (times : Times) (bytes : List ℕ) (a b : ℕ) → IsFaultyAt times bytes a → IsFaultyAt times bytes b → a ≡ b }
    ensures apart { (times : Times) (bytes : List ℕ) (t : Tree) (byte : ℕ) → Means times bytes t → IsFaultyAt times bytes byte → ⊥ }
{}

/// What a text means is computed record by record: the tree exactly where the text means one, and the byte exactly where the text
/// is faulty.
pub fn a_meaning_is_computed()
    ensures tree { (times : Times) (bytes : List ℕ) (t : Tree) → (meaning times bytes ≡ Ok t) ↔ Means times bytes t }
    ensures fault { (times : Times) (bytes : List ℕ) (byte : ℕ) → (meaning times bytes ≡ Err byte) ↔ IsFaultyAt times bytes byte }
{}

/// A launch may begin with the tree of a document that is shorter than 2^31 bytes. No text means the root alone, and a launch may
/// begin with that.
pub fn a_launch_may_begin_with_a_document()
    ensures tree { (times : Times) (bytes : List ℕ) (t : Tree) → Means times bytes t → length bytes < 2 ^ 31 → IsStartTree t }
    ensures computed { (times : Times) (bytes : List ℕ) (t : Tree) → meaning times bytes ≡ Ok t → length bytes < 2 ^ 31 → IsStartTree t }
    ensures none { (times : Times) → meaning times [] ≡ Ok (root_tree times) }
    ensures root { (times : Times) → IsStartTree (root_tree times) }
{}

/// What is printed of a tree that keeps the limits is a document: one record for each name, at the name's path, each of which may
/// stand where it stands.
pub fn what_is_printed_is_a_document()
    ensures { (times : Times) (t : Tree) → IsTree t → KeepsLimits t → (rs : List Record) × AreAllowed (start times) rs × (printed t ≡ document rs)
        × (map (λ r. path_bytes (path_of r)) rs ≡ map (λ row. row.0) (listing t)) }
{}

/// What is printed of a tree that keeps the limits means the same tree: the same names, bytes and texts, and the same shared names
/// of files. Numbers and times of nodes may differ. So [`crate::read_tree`] of what [`crate::tree_text`] printed, which is as
/// computed, is the same tree, or memory ran out.
pub fn what_is_printed_reads_back()
    ensures means { (times : Times) (t : Tree) → IsTree t → KeepsLimits t → (u : Tree) × Means times (printed t) u × IsSameTree t u }
    ensures read { (times : Times) (t : Tree) (read : Result Tree (Stop TreeDocFault)) → IsTree t → KeepsLimits t → Gives read (meaning times (printed t))
        → IsSameOrLacking t read }
{}

/// The tree of a document keeps the limits. So it can be printed and read again.
pub fn a_document_keeps_the_limits()
    ensures { (times : Times) (bytes : List ℕ) (t : Tree) → Means times bytes t → KeepsLimits t }
{}
