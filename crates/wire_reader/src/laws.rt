//! Laws of what bytes are read as. Each function has an empty body: its contract is the law.

ghost use Rattle.std.specs.Prelude.{◌≡◌, ◌↔◌, List, ℕ, Some};
ghost use Rattle.rules.specs.declared.history.Entry.{Entry};
ghost use Rattle.wire.specs.declared.note.NoteRequest.{NoteRequest};
ghost use Rattle.wire.specs.declared.request.Request.{Request};
ghost use Rattle.wire.specs.declared.reply.Reply.{Reply};
ghost use Rattle.wire.specs.Form.{IsRequestText, IsNoteRequestText, IsEntryText, IsReplyText};
ghost use Rattle.wire_reader.specs.steps.Reads.{request_read, note_request_read, entry_read, reply_read};

/// Bytes are a text of at most one request.
#[tactic(auto, using(crate::proofs::RequestTexts::one_request))]
pub fn one_request()
    ensures { (bytes : List ℕ) (p q : Request)
        → IsRequestText bytes p → IsRequestText bytes q → p ≡ q }
{}

/// The request that bytes are read as is the one that they are a text of.
#[tactic(auto, using(crate::proofs::RequestTexts::requests_by_form))]
pub fn requests_by_form()
    ensures { (bytes : List ℕ) (q : Request) →
        (request_read bytes ≡ Some q) ↔ IsRequestText bytes q }
{}

/// Bytes are a text of at most one request about notes, and then of no other request.
#[tactic(auto, using(crate::proofs::NoteTexts::one_note_request, crate::proofs::NoteTexts::no_other_request))]
pub fn one_note_request()
    ensures one { (bytes : List ℕ) (p q : NoteRequest)
        → IsNoteRequestText bytes p → IsNoteRequestText bytes q → p ≡ q }
    ensures apart { (bytes : List ℕ) (p : NoteRequest) (q : Request)
        → IsNoteRequestText bytes p → ¬ IsRequestText bytes q }
{}

/// The request about notes that bytes are read as is the one that they are a text of.
#[tactic(auto, using(crate::proofs::NoteTexts::note_requests_by_form))]
pub fn note_requests_by_form()
    ensures { (bytes : List ℕ) (q : NoteRequest) →
        (note_request_read bytes ≡ Some q) ↔ IsNoteRequestText bytes q }
{}

/// Bytes are a text of at most one entry.
#[tactic(auto, using(crate::proofs::EntryTexts::one_entry))]
pub fn one_entry()
    ensures { (bytes : List ℕ) (p q : Entry)
        → IsEntryText bytes p → IsEntryText bytes q → p ≡ q }
{}

/// The entry that bytes are read as is the one that they are a text of.
#[tactic(auto, using(crate::proofs::EntryTexts::entries_by_form))]
pub fn entries_by_form()
    ensures { (bytes : List ℕ) (e : Entry) → (entry_read bytes ≡ Some e) ↔ IsEntryText bytes e }
{}

/// Bytes are a text of at most one reply.
#[tactic(auto, using(crate::proofs::ReplyTexts::one_reply))]
pub fn one_reply()
    ensures { (bytes : List ℕ) (p q : Reply)
        → IsReplyText bytes p → IsReplyText bytes q → p ≡ q }
{}

/// The reply that bytes are read as is the one that they are a text of.
#[tactic(auto, using(crate::proofs::ReplyTexts::replies_by_form))]
pub fn replies_by_form()
    ensures { (bytes : List ℕ) (r : Reply) → (reply_read bytes ≡ Some r) ↔ IsReplyText bytes r }
{}
