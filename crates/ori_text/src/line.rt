// Lines of input: what each says, and reading them from a source.
ghost use Rattle.std.specs.Prelude.{◌≡◌, ◌≢◌, ◌+◌, ◌-◌, ◌<◌, ◌≤◌, ◌^◌, ◌++◌, [], List, ℕ, length, take, drop, position};
ghost use Rattle.std.specs.Prelude.{◌==◌, codes, decimal, vec_len, IfOk, OnErr, MatchOption, false};
ghost use Rattle.ori_volume.specs.Causes.{HasCause};
ghost use Rattle.ori_volume.specs.Streams.{Took};
ghost use Rattle.ori_bytes.specs.declared.rid.Rid.{Rid};
ghost use Rattle.ori_spec_data.specs.Base.{DirData};
ghost use Rattle.ori_spec_texts.specs.Line.{is_try, body_of, without_last, is_too_long, is_skipped, dir_text, bag};
ghost use Rattle.ori_spec_texts.specs.Line.{IsSession, IsStepText};
ghost use Rattle.ori_model.specs.Data.{dir_of};
ghost use Rattle.ori_text.specs.Lines.{Reading};
ghost use Rattle.ori_text.specs.LineReading.{IsAtEnd, IsNext};
ghost use Rattle.ori_text.specs.LineSteps.{IsJudged, IsFront, HasFront, HasNoFront, IsTaking, IsRead, IsStep, MayGoOn};
ghost use Rattle.ori_text.specs.LineSteps.{IsPrompt, IsPromptStep};
ghost use Rattle.ori_text.specs.LineForms.{IsSaidBy, IsStepRead, IsBareStep, AsksTries};

use crate::pieces::{after, is_word, read_link, split_at_space};
use ori_bytes::limits::{MAX_INPUT_BYTES, MAX_LINE_BYTES, MAX_SESSIONS, MAX_TRIES, PARTITIONS};
use ori_bytes::{NoMemory, Rid, Text};
use ori_model::Dir;
use ori_volume::{Failed, Source};
use std::alloc::Global;
use std::marker::Model;

/// How many bytes are asked of a source at once, at least.
const CHUNK_BYTES: usize = 4096;

/// The reader's buffer: a line that has no end yet and isn't too long, and a chunk.
const BUFFER_BYTES: usize = MAX_LINE_BYTES + 2 + CHUNK_BYTES;

/// A step of the store, `! <step>`.
#[derive(Drop)]
pub enum StepLine {
    /// Writes the pages of a cache partition, 0 to 7.
    Flush { part: u8 },
    Settle,
    Checkpoint,
    Reopen,
    History,
    /// Shows the bag of a vertex's edges of one class.
    Bag { vertex: Rid, dir: Dir, class: Text },
    Check,
}

/// What a line says. Sessions are 1 to 64.
#[derive(Drop)]
pub enum Line {
    /// A session's statement.
    Statement { session: u8, text: Text },
    /// A session's statement that is to be tried 1 to 1,000,000 times; its text isn't empty.
    Tries { session: u8, count: u32, text: Text },
    Step(StepLine),
}

/// Why no line is given.
#[derive(Clone, Copy)]
pub enum LineFault {
    /// The source failed. What it gave before is kept, and reading may go on.
    Source,
    /// The next line is of no form, or longer than lines may be. Reading ends here.
    Bad,
    /// The first byte past the limit of the input lies in the next line. Reading ends here.
    TooLarge,
    /// There was no memory for a line's text. The line is still held, and reading may go on.
    NoMemory,
}

// What became of the bytes at the front of those that are held.
#[derive(Drop)]
enum Taken {
    Said(Line),
    Skipped,
    Nothing,
}

// What one step of reading gives.
#[derive(Drop)]
enum Step {
    Said(Line),
    End,
    Further,
}

/// Reads lines from a source, in a buffer of one line and a chunk. A contract sees how many bytes were given as lines,
/// the bytes that were read and not given yet, and whether the source has given its end.
#[derive(Drop)]
pub struct LineReader {
    buffer: Vec<u8>,
    start: usize,
    end: usize,
    given: u64,
    ended: bool,
}

impl Model for LineReader {
    ghost use Rattle.std.specs.Prelude.{take, drop, vec_len, ◌≡◌, ◌≤◌, ◌-◌};
    ghost use Rattle.ori_text.specs.Lines.{Reading};
    ghost use Rattle.ori_text.specs.declared.line.TheConstants.{BUFFER_BYTES};

    ghost Value = { Reading };

    ghost view = { λ r.
        record { given = r.given; held = take (r.end - r.start) (drop r.start r.buffer.items); ended = r.ended } };

    ghost invariant = { λ r. (r.start ≤ r.end) × (r.end ≤ vec_len r.buffer) × (vec_len r.buffer ≡ BUFFER_BYTES) };
}

impl LineReader {
    /// A reader that has read nothing. It takes its buffer here.
    pub fn new(alloc: Global) -> Result<LineReader, NoMemory>
        ensures { IfOk result (λ reader. reader ≡ record { given = 0; held = []; ended = false }) }
    {
        Ok(LineReader {
            buffer: vec![in alloc; 0; BUFFER_BYTES]?,
            start: 0,
            end: 0,
            given: 0,
            ended: false,
        })
    }

    /// The next line that says something, or none at the end of the input. Memory is taken for the line's text alone.
    ///
    /// It isn't called again after `Bad` and `TooLarge`; after `Source` and `NoMemory` it may be.
    pub fn next<S: Source>(
        &mut self,
        alloc: Global,
        source: &mut S,
    ) -> Result<Option<Line>, LineFault>
        requires { self.old.given ≤ MAX_INPUT_BYTES }
        ensures next { IsNext (S.left source.old) (S.left source.new) (S.faults source.old) (S.faults source.new)
            self.old self.new result }
        ensures goes_on { MayGoOn result self.new }
        ensures prompt { IsPrompt source.old source.new self.old }
        ensures later { S.faults source.old ≤ S.faults source.new }
    {
        loop {
            match self.step(alloc, source) {
                Ok(Step::Said(line)) => return Ok(Some(line)),
                Ok(Step::End) => return Ok(None),
                Ok(Step::Further) => {}
                Err(fault) => return Err(fault),
            }
        }
    }

    // Takes the line at the front, or reads more where there is none.
    fn step<S: Source>(&mut self, alloc: Global, source: &mut S) -> Result<Step, LineFault>
        requires { self.old.given ≤ MAX_INPUT_BYTES }
        ensures step { IsStep (S.left source.old) (S.left source.new) (S.faults source.old) (S.faults source.new)
            self.old self.new result }
        ensures prompt { IsPromptStep source.old source.new self.old self.new result }
        ensures later { S.faults source.old ≤ S.faults source.new }
    {
        match self.take_line(alloc) {
            Ok(Taken::Said(line)) => Ok(Step::Said(line)),
            Ok(Taken::Skipped) => Ok(Step::Further),
            Ok(Taken::Nothing) => self.go_on(source),
            Err(fault) => Err(fault),
        }
    }

    // Reads more, unless the input has ended. Nothing that is held is a line yet.
    fn go_on<S: Source>(&mut self, source: &mut S) -> Result<Step, LineFault>
        requires within { self.old.given ≤ MAX_INPUT_BYTES }
        requires part { HasNoFront self.old }
        ensures step { IsStep (S.left source.old) (S.left source.new) (S.faults source.old) (S.faults source.new)
            self.old self.new result }
        ensures prompt { IsPromptStep source.old source.new self.old self.new result }
        ensures later { S.faults source.old ≤ S.faults source.new }
    {
        if self.has_ended() {
            return Ok(Step::End);
        }
        match self.read_more(source) {
            Ok(()) => Ok(Step::Further),
            Err(Failed) => Err(LineFault::Source),
        }
    }

    fn has_ended(&self) -> bool
        ensures { result ≡ self.now.ended }
    {
        self.ended
    }

    // Takes the line at the front of what is held.
    fn take_line(&mut self, alloc: Global) -> Result<Taken, LineFault>
        requires { self.old.given ≤ MAX_INPUT_BYTES }
        ensures taking { IsTaking self.old self.new result }
        ensures bound { length self.new.held ≤ BUFFER_BYTES }
    {
        let Some(line) = self.first_line() else {
            return Ok(Taken::Nothing);
        };
        let len = line.len();
        let judged = judge(alloc, line, self.given + len as u64);
        if let Err(LineFault::NoMemory) = judged {
            return Err(LineFault::NoMemory);
        }
        self.pass(len);
        match judged {
            Ok(Some(line)) => Ok(Taken::Said(line)),
            Ok(None) => Ok(Taken::Skipped),
            Err(fault) => Err(fault),
        }
    }

    // The line at the front of what is held.
    fn first_line(&self) -> Option<&[u8]>
        ensures { MatchOption result (HasNoFront self.now) (λ line. HasFront self.now line.now) }
    {
        front_line(&self.buffer[self.start..self.end], self.ended)
    }

    // Goes past bytes at the front of what is held, which were given.
    fn pass(&mut self, len: usize)
        requires fits { len ≤ length self.old.held }
        requires within { self.old.given ≤ MAX_INPUT_BYTES }
        ensures { self.new
            ≡ record { given = self.old.given + len; held = drop len self.old.held; ended = self.old.ended } }
    {
        self.start += len;
        self.given += len as u64;
    }

    // Reads more behind what is held, which is moved to the buffer's front first.
    fn read_more<S: Source>(&mut self, source: &mut S) -> Result<(), Failed>
        requires { length self.old.held ≤ MAX_LINE_BYTES + 2 }
        ensures read { IsRead (S.left source.old) (S.left source.new) (S.faults source.old) (S.faults source.new)
            self.old self.new result }
        ensures later { S.faults source.old ≤ S.faults source.new }
        ensures bound { length self.new.held ≤ BUFFER_BYTES }
    {
        self.buffer.copy_within(self.start..self.end, 0);
        self.end -= self.start;
        self.start = 0;
        let count = read_at(source, &mut self.buffer, self.end)?;
        self.end += count;
        self.ended = count == 0;
        Ok(())
    }
}

// Reads into a buffer from a place on.
fn read_at<S: Source>(source: &mut S, buffer: &mut Vec<u8>, at: usize) -> Result<usize, Failed>
    requires { at ≤ vec_len buffer.old }
    ensures len { vec_len buffer.new ≡ vec_len buffer.old }
    ensures front { take at buffer.new.items ≡ take at buffer.old.items }
    ensures bound { IfOk result (λ count. at + count ≤ vec_len buffer.old) }
    ensures bytes { IfOk result (λ count.
        Took (S.left source.old) (S.left source.new) (take count (drop at buffer.new.items))) }
    ensures end { IfOk result (λ count.
        count ≡ 0 → at < vec_len buffer.old → IsAtEnd (S.left source.old)) }
    ensures failed { OnErr result (S.left source.new ≡ S.left source.old) }
    ensures cause { HasCause (S.faults source.old) (S.faults source.new) result }
{
    source.read(&mut buffer[at..])
}

// The line at the front of some bytes: whole, or all of them where they are too long already or the input has ended.
fn front_line(held: &[u8], ended: bool) -> Option<&[u8]>
    ensures { MatchOption result
        (HasNoFront (record { given = 0; held = held.now; ended = ended }))
        (λ line. (rest : List ℕ) × IsFront ended held.now line.now rest) }
{
    if let Some(at) = newline_at(held) {
        return Some(&held[..at + 1]);
    }
    if is_too_long(held) {
        return Some(held);
    }
    if !ended {
        return None;
    }
    if held.is_empty() {
        return None;
    }
    Some(held)
}

fn newline_at(bytes: &[u8]) -> Option<usize>
    ensures { result ≡ position (λ b. b == 10) bytes.now }
{
    bytes.iter().position(|b| *b == b'\n')
}

// What a line says, whose last byte is the input's end-th; none where it is skipped.
fn judge(alloc: Global, line: &[u8], end: u64) -> Result<Option<Line>, LineFault>
    ensures { IsJudged line.now end result }
{
    if is_too_long(line) {
        return Err(LineFault::Bad);
    }
    if end > MAX_INPUT_BYTES {
        return Err(LineFault::TooLarge);
    }
    if is_skipped(line) {
        return Ok(None);
    }
    let Ok(body) = str::from_utf8(body_of(line)) else {
        return Err(LineFault::Bad);
    };
    match said_by(alloc, body) {
        Ok(Some(said)) => Ok(Some(said)),
        Ok(None) => Err(LineFault::Bad),
        Err(NoMemory) => Err(LineFault::NoMemory),
    }
}

fn is_too_long(line: &[u8]) -> bool
    ensures { result ≡ is_too_long line.now }
{
    body_of(line).len() > MAX_LINE_BYTES
}

// Whether a line is empty or a comment.
fn is_skipped(line: &[u8]) -> bool
    ensures { result ≡ is_skipped line.now }
{
    let body = body_of(line);
    body.is_empty() || body.starts_with(b"--")
}

// A line without its newline, and then without one carriage return.
fn body_of(line: &[u8]) -> &[u8]
    ensures { result.now ≡ body_of line.now }
{
    without_last(b'\r', without_last(b'\n', line))
}

fn without_last(byte: u8, bytes: &[u8]) -> &[u8]
    ensures { result.now ≡ without_last byte bytes.now }
{
    let Some((last, rest)) = bytes.split_last() else {
        return bytes;
    };
    if *last == byte { rest } else { bytes }
}

// What a line's body says, where it is of the forms.
fn said_by(alloc: Global, body: &str) -> Result<Option<Line>, NoMemory>
    ensures { IsSaidBy body.now result }
{
    if let Some(step) = after(body, "! ") {
        return match read_step(alloc, step)? {
            Some(step) => Ok(Some(Line::Step(step))),
            None => Ok(None),
        };
    }
    let Some((session, text)) = split_at_space(body) else {
        return Ok(None);
    };
    let Some(session) = read_session(session) else {
        return Ok(None);
    };
    if !is_try(text) {
        let text = Text::from_str(alloc, text)?;
        return Ok(Some(Line::Statement { session, text }));
    }
    let Some((count, text)) = read_tries(text) else {
        return Ok(None);
    };
    let text = Text::from_str(alloc, text)?;
    Ok(Some(Line::Tries {
        session,
        count,
        text,
    }))
}

// Whether a session's text asks for tries: no statement begins so.
fn is_try(text: &str) -> bool
    ensures { result ≡ is_try text.now }
{
    text == "TRY" || text.starts_with("TRY ")
}

// How often a statement is to be tried, and the statement.
fn read_tries(text: &str) -> Option<(u32, &str)>
    ensures { MatchOption result
        ((count : ℕ) (statement : List ℕ) → AsksTries text.now count statement → ⊥)
        (λ tries. AsksTries text.now tries.0 tries.1.now) }
{
    let (count, statement) = split_at_space(after(text, "TRY ")?)?;
    let count = read_count(count)?;
    if statement.is_empty() {
        return None;
    }
    Some((count, statement))
}

fn read_count(text: &str) -> Option<u32>
    ensures { MatchOption result
        ((count : ℕ) → 0 < count → count ≤ MAX_TRIES → text.now ≢ decimal count)
        (λ count. (0 < count) × (count ≤ MAX_TRIES) × (text.now ≡ decimal count)) }
{
    let count = read_number(text)?;
    if count > MAX_TRIES {
        return None;
    }
    Some(count)
}

fn read_session(text: &str) -> Option<u8>
    ensures { MatchOption result
        ((session : ℕ) → IsSession session → text.now ≢ decimal session)
        (λ session. IsSession session × (text.now ≡ decimal session)) }
{
    let session = read_number(text)?;
    if session > u32::from(MAX_SESSIONS) {
        return None;
    }
    Some(session as u8)
}

// A number from 1 on, with no sign and no zero in front.
fn read_number(text: &str) -> Option<u32>
    ensures { MatchOption result
        ((n : ℕ) → 0 < n → n < 2 ^ 32 → text.now ≢ decimal n)
        (λ n. (0 < n) × (n < 2 ^ 32) × (text.now ≡ decimal n)) }
{
    if text.starts_with('+') {
        return None;
    }
    if text.starts_with('0') {
        return None;
    }
    text.parse().ok()
}

// The step that a text names.
fn read_step(alloc: Global, text: &str) -> Result<Option<StepLine>, NoMemory>
    ensures { IsStepRead text.now result }
{
    if let Some(step) = read_bare_step(text) {
        return Ok(Some(step));
    }
    if let Some(part) = read_flush(text) {
        return Ok(Some(StepLine::Flush { part }));
    }
    let Some((vertex, dir, class)) = read_bag(text) else {
        return Ok(None);
    };
    let class = Text::from_str(alloc, class)?;
    Ok(Some(StepLine::Bag { vertex, dir, class }))
}

fn read_bare_step(text: &str) -> Option<StepLine>
    ensures { IsBareStep text.now result }
{
    if text == "settle" {
        return Some(StepLine::Settle);
    }
    if text == "checkpoint" {
        return Some(StepLine::Checkpoint);
    }
    if text == "reopen" {
        return Some(StepLine::Reopen);
    }
    if text == "history" {
        return Some(StepLine::History);
    }
    if text == "check" {
        return Some(StepLine::Check);
    }
    None
}

fn read_flush(text: &str) -> Option<u8>
    ensures { MatchOption result
        ((part : ℕ) → part < PARTITIONS → text.now ≢ codes "flush " ++ decimal part)
        (λ part. (part < PARTITIONS) × (text.now ≡ codes "flush " ++ decimal part)) }
{
    let digits = after(text, "flush ")?;
    if digits == "0" {
        return Some(0);
    }
    let part = read_number(digits)?;
    if part >= u32::from(PARTITIONS) {
        return None;
    }
    Some(part as u8)
}

// The vertex, the direction and the class of a bag.
fn read_bag(text: &str) -> Option<(Rid, Dir, &str)>
    ensures { MatchOption result
        ((vertex : Rid) (dir : DirData) (class : List ℕ) → IsStepText text.now (bag vertex dir class) → ⊥)
        (λ parts. IsStepText text.now (bag parts.0 (dir_of parts.1) parts.2.now)) }
{
    let (link, rest) = split_at_space(after(text, "bag ")?)?;
    let vertex = read_link(link)?;
    let (dir, class) = split_at_space(rest)?;
    let dir = read_dir(dir)?;
    if !is_word(class) {
        return None;
    }
    Some((vertex, dir, class))
}

fn read_dir(text: &str) -> Option<Dir>
    ensures { MatchOption result
        ((dir : DirData) → text.now ≢ dir_text dir)
        (λ dir. text.now ≡ dir_text (dir_of dir)) }
{
    if text == "out" {
        return Some(Dir::Out);
    }
    if text == "in" {
        return Some(Dir::Into);
    }
    None
}
