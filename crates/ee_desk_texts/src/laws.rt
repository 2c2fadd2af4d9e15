//! Laws of the definitions. A body here does nothing; the clauses state the laws.

ghost use Rattle.std.specs.Prelude.{◌≡◌, Option, Some};
ghost use Rattle.ee_desk_model.specs.declared.acts.Act.{Act};
ghost use Rattle.ee_desk_model.specs.declared.replies.Reply.{Reply};
ghost use Rattle.ee_desk_texts.specs.Texts.{act_text, reply_text};
ghost use Rattle.ee_desk_texts.specs.Ranges.{ActFits, ReplyFits};
ghost use Rattle.ee_desk_texts.specs.Reading.{ReadsAct, ReadsReply};

/// What is written reads back: the canonical text of an act is read as that act, and the text of a reply
/// as that reply. So no two acts share a text, and no two replies do.
pub const fn texts_law()
    ensures acts { (a : Act) (o : Option Act) → ActFits a → ReadsAct (act_text a) o → o ≡ Some a }
    ensures replies { (p : Reply) (o : Option Reply) → ReplyFits p → ReadsReply (reply_text p) o → o ≡ Some p }
    ensures one_act { (a b : Act) → ActFits a → ActFits b → act_text a ≡ act_text b → a ≡ b }
    ensures one_reply { (p q : Reply) → ReplyFits p → ReplyFits q → reply_text p ≡ reply_text q → p ≡ q }
{}
