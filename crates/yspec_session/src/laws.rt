//! What holds of every session.

ghost use Rattle.std.specs.Prelude.{◌≡◌, ◌+◌, ◌-◌, ◌≤◌, ℕ, Bool, List, [], ◌∷◌, Option, Some, None, Ok, length, map, take, true};
ghost use Rattle.std.specs.List.{list_all};
ghost use Rattle.yspec.specs.schema.Schema.{Schema};
ghost use Rattle.yspec.specs.document.Document.{Tree};
ghost use Rattle.yspec.specs.document.Fault.{Fault};
ghost use Rattle.yspec.specs.document.StateData.{seen_faults};
ghost use Rattle.yspec.specs.edit.EditText.{Edit};
ghost use Rattle.yspec.specs.edit.Editing.{after, applied};
ghost use Rattle.yspec_session.specs.Carrying.{Turn, difference};
ghost use Rattle.yspec_session.specs.Session.{Begun, Earlier, Session, Request, Why, accepted, answered, back, begin, begun_with, behind_all, change, committed, configured_by, fallen, is_inside, refused, told_of, turns_of, turns_to, undos, with_remembered};
ghost use Rattle.yspec_session.specs.Remembering.{Since, Kept, Remembers, back_to, begun_here, behind_groups, joined, marked, settled, turns_behind, way_to, with_group};

/// What is new and what is gone make up for the difference of both lists.
pub fn counts()
    ensures { (turns : List Turn) (earlier later : List Fault)
        → length earlier + length (difference turns earlier later).told ≡ length later + length (difference turns earlier later).gone }
{}

/// Of a list nothing is new beside itself, and nothing gone.
pub fn unchanged()
    ensures { (faults : List Fault) → difference [] faults faults ≡ record { told = []; gone = [] } }
{}

/// A request that is refused leaves all as it was.
pub fn refused_requests()
    ensures { (configured : Option Schema) (schema : Schema) (limit : ℕ) (s : Session) (r : Request) (why : Why)
        → (answered configured schema limit s r).0 ≡ refused why → (answered configured schema limit s r).1 ≡ s }
{}

/// The faults that are told are those of a report on the document, or on its configuration alone; which of both changes no document.
pub fn looked_at()
    ensures told { (of_configuration : Bool) (schema : Schema) (tree : Tree)
        → told_of (configured_by of_configuration schema) schema tree ≡ seen_faults of_configuration schema tree }
    ensures left { (configured other : Option Schema) (schema : Schema) (limit : ℕ) (s : Session) (r : Request)
        → (answered configured schema limit s r).1 ≡ (answered other schema limit s r).1 }
{}

/// The document is the one with the accepted edits applied.
pub fn documents()
    ensures { (configured : Option Schema) (schema : Schema) (limit : ℕ) (s : Session) (edits : List Edit)
        → (behind_all configured schema limit s (map change edits)).tree ≡ after schema s.tree edits }
{}

/// With every accepted edit taken back all is as it was, where so many are remembered.
pub fn all_undone()
    ensures { (configured : Option Schema) (schema : Schema) (limit : ℕ) (s : Session) (edits : List Edit) → length s.remembered + length edits ≤ limit
        → behind_all configured schema limit (behind_all configured schema limit s (map change edits)) (undos (accepted schema s.tree edits)) ≡ s }
{}

/// Edits that fall together leave nothing.
pub fn all_fallen()
    ensures { (configured : Option Schema) (schema : Schema) (limit : ℕ) (s : Session) (requests : List Request) → s.begun ≡ None → list_all is_inside requests ≡ true
        → (answered configured schema limit (behind_all configured schema limit (answered configured schema limit s begin).1 requests) back).1 ≡ s }
{}

/// A session that is kept by the edits since a document stays one: with an edit that is accepted, and where edits together begin,
/// stand or fall; with a later document; and where it is counted from that one. The nearest document leads to each place. What
/// comes back and what falls leads back by the turns that the edits tell.
pub fn remembered()
    ensures changed { (schema : Schema) (limit : ℕ) (k : Kept) (s : Session) (e : Edit) (later : Tree) → Remembers schema k s
        → applied schema s.tree e ≡ Ok later
        → Remembers schema (with_group limit (e ∷ []) k) (with_remembered limit (turns_of schema s.tree e).back later s) }
    ensures begun { (schema : Schema) (k : Kept) (s : Session) → Remembers schema k s → s.begun ≡ None
        → Remembers schema (begun_here k) (begun_with s None).1 }
    ensures standing { (schema : Schema) (limit : ℕ) (k : Kept) (s : Session) (b : Begun) (since : Since) → Remembers schema k s
        → s.begun ≡ Some b → k.begun ≡ Some since → Remembers schema (joined limit since k) (committed limit s (Some b)).1 }
    ensures falling { (configured : Option Schema) (schema : Schema) (k : Kept) (s : Session) (b : Begun) (since : Since) → Remembers schema k s
        → s.begun ≡ Some b → k.begun ≡ Some since → Remembers schema (back_to since k) (fallen configured schema s (Some b)).1 }
    ensures marked { (schema : Schema) (k : Kept) (s : Session) → Remembers schema k s → Remembers schema (marked s.tree k) s }
    ensures settled { (schema : Schema) (k : Kept) (s : Session) → Remembers schema k s → Remembers schema (settled k) s }
    ensures ways { (schema : Schema) (n : ℕ) (k : Kept) (s : Session) → Remembers schema k s
        → behind_groups schema (way_to n k).0 (way_to n k).1 ≡ behind_groups schema k.base (take n k.groups) }
    ensures coming_back { (schema : Schema) (k : Kept) (s : Session) (e : Earlier) (others : List Earlier) → Remembers schema k s
        → s.remembered ≡ e ∷ others → e.turns ≡ turns_behind schema (length k.groups - 1) k }
    ensures falling_back { (schema : Schema) (k : Kept) (s : Session) (b : Begun) (since : Since) → Remembers schema k s
        → s.begun ≡ Some b → k.begun ≡ Some since → turns_to b ≡ turns_behind schema since.groups k }
{}
