//! Scripts: lines with the messages of sessions, answered in order.

ghost use Rattle.std.specs.Prelude.{◌≡◌, ◌≢◌, ◌⊎◌, ℕ, List, [], ◌∷◌, ◌++◌, length, option_map, IfOk, IfSome, IfErr, OnOk, OnErr, IsErrOf, MatchOption};
ghost use Rattle.std.specs.Fmt.{decimal};
ghost use Rattle.std.specs.Io.KnownBytes.{Appends, IsAtEnd, Keeps};
ghost use Rattle.wire.specs.steps.OneLine.{IsOneLine};
ghost use Rattle.world.specs.steps.State.{names_of, rooms_of, message_of};
ghost use Rattle.byte_streams.specs.Prefixes.{AppendsPrefix};
ghost use Rattle.world.specs.steps.Messages.{message_in};
ghost use Rattle.world.specs.steps.Endings.{Stops, AnswersRead, AnswersScript};
ghost use Rattle.world.specs.steps.Answered.{kept_part, line_text, IsHeld, IsPastLine, IsPastEnd, Adds, AnswersSome, Hands, Wrote, WroteSome};
ghost use Rattle.world.specs.steps.Ends.{output_of};

use crate::World;
use crate::fault::ScriptFault;
use base_types::NoMemory;
use byte_streams::{read_buffer, write_out};
use itoa::Buffer;
use memchr::memchr;
use std::alloc::Global;
use std::io::{Read, Write};
use wire_reader::Scratch;

/// How many bytes of a line are kept: a session, a space and one byte more than a request has.
const LINE_LIMIT: usize = 16396;

/// From how many bytes on the answers are written out though not all that was read is answered.
const MANY_ANSWERS: usize = 65536;

/// The session and the message of a line, if it is of that form.
#[tactic(auto, using(crate::proofs::Lines::number_then_more))]
fn message_in(line: &[u8]) -> Option<(u32, &[u8])>
    ensures { message_in line.now ≡ option_map (λ m. message_of m.0 m.1.now) result }
{
    let Some((first, rest)) = line.split_first() else {
        return None;
    };
    if !first.is_ascii_digit() {
        return None;
    }
    let mut value = u32::from(*first - b'0');
    for (place, byte) in rest.iter().enumerate() {
        if *byte == b' ' {
            return Some((value, &rest[place + 1..]));
        }
        if !byte.is_ascii_digit() || value == 0 {
            return None;
        }
        let next = u64::from(value) * 10 + u64::from(*byte - b'0');
        if next >= 4294967296 {
            return None;
        }
        value = next as u32;
    }
    None
}

/// The bytes before the first line break, and those after it, if there is one.
fn split_line(bytes: &[u8]) -> Option<(&[u8], &[u8])>
    ensures { MatchOption result (IsOneLine bytes.now) (λ parts.
        (bytes.now ≡ parts.0.now ++ 10 ∷ parts.1.now) × IsOneLine parts.0.now) }
{
    let place = memchr(b'\n', bytes)?;
    Some((&bytes[..place], &bytes[place + 1..]))
}

/// Appends bytes to the line, as many as can make a difference.
fn keep_bytes(line: &mut Vec<u8>, bytes: &[u8]) -> Result<(), NoMemory>
    requires held { IsHeld line.old.items }
    ensures ok { OnOk result (line.new.items ≡ kept_part (line.old.items ++ bytes.now)) }
{
    let room = LINE_LIMIT - line.len();
    line.extend_from_slice(&bytes[..room.min(bytes.len())])?;
    Ok(())
}

/// Writes the answers, and clears them.
fn hand_out<W: Write>(output: &mut W, answers: &mut Vec<u8>) -> Result<(), ScriptFault>
    ensures ok { OnOk result
        (Appends (W.contents output.old) (W.contents output.new) answers.old.items) }
    ensures empty { OnOk result (answers.new.items ≡ []) }
    ensures fault { OnErr result
        (AppendsPrefix (W.contents output.old) (W.contents output.new) answers.old.items) }
    ensures kind { IfErr result (λ fault. fault ≡ ScriptFault.Write) }
{
    if write_out(output, answers.as_slice()).is_err() {
        return Err(ScriptFault::Write);
    }
    answers.clear();
    Ok(())
}

/// Writes the answers if asked to, or if there are many.
fn hand_out_many<W: Write>(
    output: &mut W,
    answers: &mut Vec<u8>,
    now: bool,
) -> Result<(), ScriptFault>
    ensures ok { OnOk result
        (Hands (W.contents output.old) (W.contents output.new)
        answers.old.items answers.new.items) }
    ensures fault { OnErr result
        (AppendsPrefix (W.contents output.old) (W.contents output.new) answers.old.items) }
    ensures kind { IfErr result (λ fault. fault ≡ ScriptFault.Write) }
{
    if now || answers.len() >= MANY_ANSWERS {
        return hand_out(output, answers);
    }
    Ok(())
}

/// Flushes the output.
fn flush_out<W: Write>(output: &mut W) -> Result<(), ScriptFault>
    ensures kept { Keeps (W.contents output.old) (W.contents output.new) }
    ensures kind { IfErr result (λ fault. fault ≡ ScriptFault.Write) }
{
    match output.flush() {
        Ok(()) => Ok(()),
        Err(_fault) => Err(ScriptFault::Write),
    }
}

/// Appends the line of a reply to the answers. On `Err` nothing of it is appended.
fn add_reply(answers: &mut Vec<u8>, session: u32, reply: &str) -> Result<(), NoMemory>
    ensures ok { let line = decimal session ++ (32 ∷ reply.now) ++ 10 ∷ [] in
        OnOk result (answers.new.items ≡ answers.old.items ++ line) }
    ensures err { OnErr result (answers.new.items ≡ answers.old.items) }
{
    let mut digits = Buffer::new();
    let number = digits.format(session);
    answers.reserve(number.len() + reply.len() + 2)?;
    answers.extend_from_slice(number.as_bytes()).unwrap();
    answers.push(b' ').unwrap();
    answers.extend_from_slice(reply.as_bytes()).unwrap();
    answers.push(b'\n').unwrap();
    Ok(())
}

impl World {
    /// Appends the answer to a line of a script. On `Err` no answer is appended.
    fn answer_line(
        &mut self,
        alloc: Global,
        scratch: &mut Scratch,
        line: &[u8],
        answers: &mut Vec<u8>,
    ) -> Result<(), NoMemory>
        ensures answers { OnOk result
            (answers.new.items ≡ answers.old.items ++ line_text self.old line.now) }
        ensures ok { OnOk result (IsPastLine self.old line.now self.new) }
        ensures none { OnErr result (answers.new.items ≡ answers.old.items) }
        ensures err { OnErr result ((self.new ≡ self.old) ⊎ IsPastLine self.old line.now self.new) }
        ensures names { names_of self.new ≡ names_of self.old }
    {
        match message_in(line) {
            None => answers.extend_from_slice(b"?\n")?,
            Some((session, bytes)) => {
                let reply = self.step_with(alloc, scratch, session, bytes)?;
                add_reply(answers, session, reply.as_str())?;
            }
        }
        Ok(())
    }

    /// Takes the bytes before a line feed, and appends the answer to the line that they end.
    fn end_line(
        &mut self,
        alloc: Global,
        scratch: &mut Scratch,
        line: &mut Vec<u8>,
        bytes: &[u8],
        answers: &mut Vec<u8>,
    ) -> Result<(), NoMemory>
        requires held { IsHeld line.old.items }
        requires bytes { IsOneLine bytes.now }
        ensures empty { OnOk result (line.new.items ≡ []) }
        ensures ok { let whole = line.old.items ++ bytes.now ++ 10 ∷ [] in
            OnOk result (Adds self.old self.new
            whole line.new.items answers.old.items answers.new.items) }
        ensures none { OnErr result (answers.new.items ≡ answers.old.items) }
        ensures err { let whole = line.old.items ++ bytes.now ++ 10 ∷ [] in
            OnErr result (AnswersSome self.old self.new whole) }
    {
        if line.is_empty() {
            return self.answer_line(alloc, scratch, bytes, answers);
        }
        keep_bytes(line, bytes)?;
        self.answer_line(alloc, scratch, line.as_slice(), answers)?;
        line.clear();
        Ok(())
    }

    /// Answers each line that ends in the next bytes of a script, and returns the bytes that are
    /// left.
    fn answer_lines<'b, W: Write>(
        &mut self,
        alloc: Global,
        scratch: &mut Scratch,
        line: &mut Vec<u8>,
        bytes: &'b [u8],
        answers: &mut Vec<u8>,
        output: &mut W,
    ) -> Result<&'b [u8], ScriptFault>
        requires held { IsHeld line.old.items }
        requires none { answers.old.items ≡ [] }
        // What is held then, and what was written:
        ensures held { OnOk result (IsHeld line.new.items) }
        ensures rest { IfOk result (λ rest. IsOneLine rest.now) }
        ensures ok { let taken = line.old.items ++ bytes.now in
            IfOk result (λ rest. Wrote (W.contents output.old) (W.contents output.new)
            self.old self.new taken (line.new.items ++ rest.now) answers.new.items) }
        ensures fault { let taken = line.old.items ++ bytes.now in
            OnErr result (WroteSome (W.contents output.old) (W.contents output.new)
            self.old self.new taken) }
        ensures kind { IfErr result (λ fault. fault ≢ ScriptFault.Read) }
    {
        let mut rest = bytes;
        while let Some((first, others)) = split_line(rest) {
            let ended = self.end_line(alloc, scratch, line, first, answers);
            hand_out_many(output, answers, ended.is_err())?;
            ended?;
            rest = others;
        }
        Ok(rest)
    }

    /// Takes the next bytes of a script, and answers each line that ends in them.
    fn take_bytes<W: Write>(
        &mut self,
        alloc: Global,
        scratch: &mut Scratch,
        line: &mut Vec<u8>,
        bytes: &[u8],
        answers: &mut Vec<u8>,
        output: &mut W,
    ) -> Result<(), ScriptFault>
        requires held { IsHeld line.old.items }
        requires none { answers.old.items ≡ [] }
        // What is held then, and what was written:
        ensures held { OnOk result (IsHeld line.new.items) }
        ensures none { OnOk result (answers.new.items ≡ []) }
        ensures ok { let taken = line.old.items ++ bytes.now in
            OnOk result (Wrote (W.contents output.old) (W.contents output.new)
            self.old self.new taken line.new.items []) }
        ensures fault { let taken = line.old.items ++ bytes.now in
            OnErr result (WroteSome (W.contents output.old) (W.contents output.new)
            self.old self.new taken) }
        ensures kind { IfErr result (λ fault. fault ≢ ScriptFault.Read) }
    {
        let rest = self.answer_lines(alloc, scratch, line, bytes, answers, output)?;
        hand_out(output, answers)?;
        flush_out(output)?;
        keep_bytes(line, rest)?;
        Ok(())
    }

    /// Answers the last line of a script, which has no line feed.
    fn finish<W: Write>(
        &mut self,
        alloc: Global,
        scratch: &mut Scratch,
        line: &[u8],
        answers: &mut Vec<u8>,
        output: &mut W,
    ) -> Result<(), ScriptFault>
        requires clean { IsOneLine line.now }
        requires none { answers.old.items ≡ [] }
        // What was written, and where the rooms are:
        ensures ok { let text = output_of self.old line.now in
            OnOk result (Appends (W.contents output.old) (W.contents output.new) text) }
        ensures end { OnOk result (IsPastEnd self.old line.now self.new) }
        ensures names { names_of self.new ≡ names_of self.old }
        ensures fault { OnErr result
            (Stops (W.contents output.old) (W.contents output.new) self.old self.new line.now) }
        ensures kind { IfErr result (λ fault. fault ≢ ScriptFault.Read) }
    {
        if line.is_empty() {
            return Ok(());
        }
        self.answer_line(alloc, scratch, line, answers)?;
        hand_out(output, answers)?;
        flush_out(output)
    }

    /// Answers a script. A line that is a session's number, a space and a message is answered by
    /// the session, a space and the text of the reply. Any other line is answered by `?`. Each
    /// room's replies are those of that room alone. Wherever a reply shows an object, its versions
    /// are the maximal compatible groups of its changes.
    ///
    /// All whole lines of a read are answered and flushed before the next read. The last line may
    /// lack its line feed. A signal that interrupts a call makes it fail: pass
    /// `byte_streams::Uninterrupted` streams.
    ///
    /// The clauses hold for a reader with known bytes and a writer that tells what it holds, such
    /// as a slice and a `Vec`. No clause speaks of a pipe or a file.
    ///
    /// # Errors
    ///
    /// - `Read` if a read failed, or after 1,000,000,000 reads. All lines whose end was read are
    ///   answered, and their answers are written.
    /// - `Write` if a write or a flush failed. Some first lines were answered, and some first bytes
    ///   of their answers are written.
    /// - `NoMemory` if an allocation failed; otherwise as for `Write`.
    pub fn script<R: Read, W: Write>(
        &mut self,
        alloc: Global,
        input: &mut R,
        output: &mut W,
    ) -> Result<(), ScriptFault>
        ensures ok { OnOk result (IfSome (R.remaining input.old) (λ bytes.
            AnswersScript (W.contents output.old) (W.contents output.new)
            (names_of self.old) (rooms_of self.old) bytes (rooms_of self.new))) }
        ensures end { OnOk result (IsAtEnd (R.remaining input.new)) }
        ensures names { names_of self.new ≡ names_of self.old }
        // Where it ends early:
        ensures fault { OnErr result (IfSome (R.remaining input.old) (λ bytes.
            AppendsPrefix (W.contents output.old) (W.contents output.new)
            (output_of self.old bytes))) }
        ensures stops { OnErr result (IfSome (R.remaining input.old) (λ bytes.
            Stops (W.contents output.old) (W.contents output.new) self.old self.new bytes)) }
        ensures read { IsErrOf result ScriptFault.Read →
            AnswersRead (R.remaining input.old) (R.remaining input.new)
            (W.contents output.old) (W.contents output.new) self.old self.new }
    {
        let mut buffer = read_buffer(alloc)?;
        let chunk = buffer.as_mut_slice();
        let mut line = Vec::new(alloc);
        let mut answers = Vec::new(alloc);
        let mut scratch = Scratch::new(alloc);
        for _ in 0..1_000_000_000u32 {
            match input.read(chunk) {
                Ok(0) => return self.finish(
                    alloc,
                    &mut scratch,
                    line.as_slice(),
                    &mut answers,
                    output,
                ),
                Ok(count) => {
                    self.take_bytes(
                        alloc,
                        &mut scratch,
                        &mut line,
                        &chunk[..count],
                        &mut answers,
                        output,
                    )?
                }
                Err(_fault) => return Err(ScriptFault::Read),
            }
        }
        Err(ScriptFault::Read)
    }
}
