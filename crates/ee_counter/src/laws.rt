//! Laws of the definitions. A body here does nothing; the clauses state the laws.

ghost use Rattle.std.specs.Prelude.{◌≡◌, ℕ, [], Bool, List, Result, length};
ghost use Rattle.std.specs.List.{AllByRecursion};
ghost use Rattle.ee_desk_model.specs.declared.acts.Act.TheVariants as act;
ghost use Rattle.ee_desk_model.specs.declared.acts.Request.{Request};
ghost use Rattle.ee_desk_model.specs.Numbers.{RequestKey};
ghost use Rattle.ee_desk_model.specs.declared.replies.Reply.{Reply};
ghost use Rattle.ee_desk_model.specs.declared.refusals.Unserved.{Unserved};
ghost use Rattle.ee_desk_model.specs.Repeats.{Content};
ghost use Rattle.ee_desk_model.specs.Contents.{content_after};
ghost use Rattle.ee_desk_model.specs.Answers.{served, AreAnswers};
ghost use Rattle.ee_wire_framing.specs.Framing.{Message, BeginsMessages};
ghost use Rattle.ee_wire.specs.Answers.{answer_text};
ghost use Rattle.ee_wire.specs.declared.answers.Answer.{Answer};
ghost use Rattle.ee_counter.specs.Served.{IsServed};
ghost use Rattle.ee_counter.specs.Answering.{FitMessages, IsAnswer, TextsWithin, call_of};
ghost use Rattle.ee_counter.specs.Filing.{FitRows};
ghost use Rattle.ee_counter.specs.Serving.{Told, AreAnswered, left_by_all, messages, requests_in, texts};

/// Two keepers with the same content give the same answers, such as a keeper in memory and one with tables: two
/// lists of right answers to the same requests, if each request is served, are equal and leave the same
/// content.
pub const fn same_answers_law()
    ensures answers { (c : Content) (requests : List Request) (one other : List (Result Reply Unserved))
        → AreAnswers c [] requests one → AreAnswers c [] requests other
        → AllByRecursion IsServed one → AllByRecursion IsServed other → one ≡ other }
    ensures content { (c : Content) (requests : List Request) (answers : List (Result Reply Unserved))
        → AreAnswers c [] requests answers → AllByRecursion IsServed answers
        → content_after c (served requests answers) ≡ content_after c requests }
{}

/// The content determines the bytes of the response to a message: two right answers have the same text.
pub const fn one_text_law()
    ensures { (c : Content) (message : Message) (one other : Answer) (closing : Bool)
        → IsAnswer c (call_of message) one → IsAnswer c (call_of message) other
        → answer_text one closing ≡ answer_text other closing }
{}

/// The bytes of a connection and the content before determine what it writes: for the same number of messages,
/// each answered and none with 503, the responses have the same text.
pub const fn one_stream_law()
    ensures { (c : Content) (bytes rest other_rest : List ℕ) (one other : List Told)
        → BeginsMessages bytes (messages one) rest → BeginsMessages bytes (messages other) other_rest
        → length one ≡ length other → AreAnswered c one → AreAnswered c other
        → texts 0 one ≡ texts 0 other }
{}

/// What a connection leaves is what its requests leave, except those answered with 503. Everything that holds
/// for lists of requests applies to them.
pub const fn served_requests_law()
    ensures { (c : Content) (told : List Told) → left_by_all c told ≡ content_after c (requests_in told) }
{}

/// The texts of a request, and of its reply, are short, whatever the books have: those of a message that bytes begin
/// with, since its body is bounded (`messages`), and those of a file with at most 501 rows (`rates`, `bonds`).
pub const fn short_texts_law()
    ensures messages { FitMessages (TextsWithin 900000000) }
    ensures rates { (c : Content) (key : RequestKey) → FitRows (TextsWithin 900000000) c key act.AddRates }
    ensures bonds { (c : Content) (key : RequestKey) → FitRows (TextsWithin 900000000) c key act.AddBonds }
{}
