//! Laws of a session's replies. The functions do nothing: their contracts are the laws.
ghost use Rattle.std.specs.Prelude.{◌≡◌, [], ◌++◌};
ghost use Rattle.sipl_names.specs.Labels.{Octets};
ghost use Rattle.sipl_lines.specs.Items.{Item, items_of};
ghost use Rattle.sipl_lines.specs.OneReply.{AreEqualOrLost, EndsInMemory, TellsMemory};
ghost use Rattle.sipl_lines.specs.PlainDesk.{PlainState, plain_rules};
ghost use Rattle.sipl_lines.specs.Replies.{Serves};
ghost use Rattle.sipl_lines.specs.Session.{MayReply, SessionState, new_session, session_protocol};
ghost use Rattle.sipl_lines.specs.Takes.{HasTaken, Takes};

/// At the plain machine an item has one reply, and leaves one state: two replies to one item from one
/// state, of which neither ends with `err Memory`, are equal. So are the states after them, but that
/// one may have lost the lines of the zone that is being taken, which have no reply yet.
pub fn items_have_one_reply()
    ensures text { (item : Item) (before a b : SessionState PlainState) (t u : Octets)
        → MayReply plain_rules before item t a → MayReply plain_rules before item u b
        → (EndsInMemory t → ⊥) → (EndsInMemory u → ⊥) → t ≡ u }
    ensures state { (item : Item) (before a b : SessionState PlainState) (t u : Octets)
        → MayReply plain_rules before item t a → MayReply plain_rules before item u b
        → (EndsInMemory t → ⊥) → (EndsInMemory u → ⊥) → AreEqualOrLost a b }
{}

/// At the plain machine a session has one text: two that have the same input, and begin at the same
/// state, have equal texts and lead to equal states, where `err Memory` is a reply in neither.
pub fn sessions_have_one_text()
    ensures text { (input t u : Octets) (before : PlainState) (a b : SessionState PlainState)
        → Serves (session_protocol plain_rules) (new_session before) (items_of input) t a
        → Serves (session_protocol plain_rules) (new_session before) (items_of input) u b
        → (TellsMemory t → ⊥) → (TellsMemory u → ⊥) → t ≡ u }
    ensures state { (input t u : Octets) (before : PlainState) (a b : SessionState PlainState)
        → Serves (session_protocol plain_rules) (new_session before) (items_of input) t a
        → Serves (session_protocol plain_rules) (new_session before) (items_of input) u b
        → (TellsMemory t → ⊥) → (TellsMemory u → ⊥) → a ≡ b }
{}

/// At the plain machine the octets of a talk may be cut anywhere: the replies are those to the complete
/// lines of all its octets, and the octets after the last line end are kept. That holds of no octets, and
/// of each piece that is taken after octets of which it holds.
pub fn pieces_have_the_replies_of_the_whole()
    ensures none { (state : SessionState PlainState) (old : Octets)
        → HasTaken (session_protocol plain_rules) state [] old state [] old }
    ensures more { (first now later : SessionState PlainState)
        (octets old pending new piece pending' newer : Octets)
        → HasTaken (session_protocol plain_rules) first octets old now pending new
        → Takes (session_protocol plain_rules) now pending piece new later pending' newer
        → HasTaken (session_protocol plain_rules) first (octets ++ piece) old later pending' newer }
{}
