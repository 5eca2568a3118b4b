// Refusals that no statement comes to yet, as they are printed.
use super::shared::{FIRST, TEMP, text};
use ori_bytes::NoMemory;
use ori_model::{Refusal, Rule};
use ori_text::step_refusal_text;
use std::alloc::Global;

// Whether a refusal is printed so.
fn shows(alloc: Global, refusal: &Refusal, want: &str) -> Result<bool, NoMemory> {
    let line = step_refusal_text(alloc, refusal)?;
    Ok(line.as_str().strip_prefix("! ERR ") == Some(want))
}

// A refusal, and what it is printed as.
fn numbered(at: u64) -> (Refusal, &'static str) {
    match at {
        0 => (Refusal::Syntax { at: 11 }, "Syntax 11\n"),
        1 => (Refusal::NoRecord { rid: TEMP }, "NoRecord #-1:-2\n"),
        2 => (
            Refusal::ClusterFull { cluster: -32768 },
            "ClusterFull -32768\n",
        ),
        3 => (
            Refusal::TxTooLarge { weight: 240_004 },
            "TxTooLarge 240004\n",
        ),
        4 => (
            Refusal::LogFull {
                need: 8210,
                room: 9,
            },
            "LogFull 8210 9\n",
        ),
        5 => (
            Refusal::FeedFull {
                entries: 1_048_576,
                bytes: 80,
            },
            "FeedFull 1048576 80\n",
        ),
        6 => (Refusal::Halted { at_fault: 3 }, "Halted 3\n"),
        7 => (Refusal::Damaged { page: 7 }, "Damaged 7\n"),
        _ => (Refusal::NoMemory, "NoMemory\n"),
    }
}

// The first of these refusals that is printed otherwise.
fn misprint(alloc: Global) -> Result<Option<u64>, NoMemory> {
    for at in 0..9 {
        let (refusal, want) = numbered(at);
        if !shows(alloc, &refusal, want)? {
            return Ok(Some(at));
        }
    }
    Ok(None)
}

#[test]
fn refusals_of_numbers(rt: HostRuntime) {
    assert!(rt; misprint(rt.alloc()) == Ok(None));
}

fn breach(alloc: Global) -> Result<Refusal, NoMemory> {
    Ok(Refusal::Schema {
        rid: TEMP,
        property: text(alloc, "name")?,
        rule: Rule::OfKind,
    })
}

fn twice(alloc: Global) -> Result<Refusal, NoMemory> {
    Ok(Refusal::Duplicate {
        index: text(alloc, "P_k")?,
        first: FIRST,
        second: TEMP,
    })
}

// Whether a refusal that was made is printed so.
fn is_shown(alloc: Global, refusal: Result<Refusal, NoMemory>, want: &str) -> bool {
    match refusal {
        Ok(refusal) => shows(alloc, &refusal, want) == Ok(true),
        Err(_) => false,
    }
}

#[test]
fn a_broken_property(rt: HostRuntime) {
    assert!(rt; is_shown(rt.alloc(), breach(rt.alloc()), "Schema #-1:-2 name Type\n"));
}

#[test]
fn a_key_that_comes_twice(rt: HostRuntime) {
    assert!(rt; is_shown(rt.alloc(), twice(rt.alloc()), "Duplicate P_k #1:0 #-1:-2\n"));
}
