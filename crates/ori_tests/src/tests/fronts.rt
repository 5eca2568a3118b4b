// Replies with the fronts at which they were read and decided.
use super::runs::OPENING_CALLS;
use super::shared::numbers;
use ori_bytes::{NoMemory, Text};
use ori_engine::Engine;
use ori_model::Reply;
use ori_script::Sole;
use ori_session::Session;
use ori_text::reply_text;
use ori_turns::Owned;
use ori_volmem::MemVolume;
use std::alloc::Global;

// The engine over a volume in memory, whose turns are its own.
type MemEngine = Engine<MemVolume, Owned<MemVolume>>;

// Two sessions over one database.
#[derive(Drop)]
struct Desk {
    one: Session,
    two: Session,
    engine: MemEngine,
}

fn new_desk(alloc: Global, volume: MemVolume) -> Option<Desk> {
    let Ok(frames) = Owned::of(alloc, volume) else {
        return None;
    };
    let Ok(engine) = Engine::start(alloc, frames) else {
        return None;
    };
    Some(Desk {
        one: Session::new(1),
        two: Session::new(2),
        engine,
    })
}

// What a session answers to a statement.
fn answered(alloc: Global, session: &mut Session, engine: &mut MemEngine, text: &str) -> Reply {
    session.exec(alloc, engine, text)
}

fn said(alloc: Global, desk: &mut Desk, by: u8, text: &str) -> Result<Text, NoMemory> {
    let reply = if by == 1 {
        answered(alloc, &mut desk.one, &mut desk.engine, text)
    } else {
        answered(alloc, &mut desk.two, &mut desk.engine, text)
    };
    reply_text(alloc, by, &reply, true)
}

// Whether a session's reply to a statement is printed so.
fn answers(alloc: Global, desk: &mut Desk, by: u8, text: &str, reply: &str) -> bool {
    match said(alloc, desk, by, text) {
        Ok(printed) => printed.as_str() == reply,
        Err(_) => false,
    }
}

// The first statement that is answered otherwise.
fn first_wrong(
    alloc: Global,
    volume: MemVolume,
    lines: &[(u8, &'static str, &'static str)],
) -> Option<&'static str> {
    let Some(mut desk) = new_desk(alloc, volume) else {
        return Some("the opening");
    };
    for (by, text, reply) in lines {
        if !answers(alloc, &mut desk, *by, text, reply) {
            return Some(*text);
        }
    }
    None
}

// What is decided carries the front that it met, and where it was accepted one more, its own; a COMMIT carries that
// one alone.
#[test]
fn commits_carry_their_fronts(rt: HostRuntime) {
    let alloc = rt.alloc();
    let lines = [
        (
            1,
            "INSERT INTO V SET n = 0",
            "1 ROW {\"@class\":\"V\",\"@rid\":\"#1:0\",\"@version\":1,\"n\":0}\n1 OK 1 @0 @1\n",
        ),
        (1, "BEGIN", "1 OK 0 @1\n"),
        (2, "BEGIN", "2 OK 0 @1\n"),
        (1, "UPDATE #1:0 SET n = 1", "1 OK 1 @1\n"),
        (2, "UPDATE #1:0 SET n = 2", "2 OK 1 @1\n"),
        (1, "COMMIT", "1 OK 1 @2\n"),
        (2, "COMMIT", "2 ERR Conflict #1:0 expected 1 found 2 @2\n"),
        (
            1,
            "INSERT INTO V SET a = #-1:-9",
            "1 ERR Schema #-1:-2 a Temporary @2 @2\n",
        ),
    ];
    assert!(rt; first_wrong(alloc, MemVolume::empty(alloc), &lines).is_none());
}

#[test]
fn other_answers_carry_one_front(rt: HostRuntime) {
    let alloc = rt.alloc();
    let lines = [
        (1, "DELETE VERTEX #1:0", "1 OK 0 @0\n"),
        (1, "COMMIT", "1 ERR NoTransaction @0\n"),
        (1, "BEGIN", "1 OK 0 @0\n"),
        (1, "COMMIT", "1 OK 0 @0\n"),
        (1, "SELECT", "1 ERR Unbuilt @0\n"),
    ];
    assert!(rt; first_wrong(alloc, MemVolume::empty(alloc), &lines).is_none());
}

#[test]
fn failed_commits_carry_their_fronts(rt: HostRuntime) {
    let alloc = rt.alloc();
    let Ok(calls) = numbers(alloc, &[OPENING_CALLS]) else {
        panic!(rt; "out of memory")
    };
    let mut volume = MemVolume::empty(alloc);
    volume.fail(calls);
    let lines = [
        (1, "INSERT INTO V SET n = 0", "1 ERR Fault @0 @0\n"),
        (1, "INSERT INTO V SET n = 0", "1 ERR Halted 1 @0 @0\n"),
    ];
    assert!(rt; first_wrong(alloc, volume, &lines).is_none());
}
