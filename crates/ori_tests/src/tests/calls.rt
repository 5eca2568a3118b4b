// Calls that no script reaches: copies, what is added to bytes and texts, and a gate that holds nothing.
use super::shared::{FIRST, TEMP, rids, text};
use ori_bytes::{Bag, Blob, NoMemory};
use ori_model::{BagName, BagNameList, Definition, Dir, IndexDef, Property};
use ori_value::{Kind, TextList};
use ori_volume::{Gate, GateStep, NoGate};
use std::alloc::Global;

fn property(alloc: Global) -> Result<Definition, NoMemory> {
    Ok(Definition::NewProperty {
        class: text(alloc, "Doc")?,
        property: Property {
            name: text(alloc, "age")?,
            kind: Kind::Short,
            mandatory: true,
            notnull: false,
            readonly: true,
            min: Some(-1),
            max: None,
        },
    })
}

fn index(alloc: Global) -> Result<Definition, NoMemory> {
    let mut properties = TextList::new(alloc);
    properties.push(text(alloc, "age")?)?;
    properties.push(text(alloc, "name")?)?;
    Ok(Definition::NewIndex {
        index: IndexDef {
            name: text(alloc, "Doc_key")?,
            class: text(alloc, "Doc")?,
            properties,
            unique: true,
        },
    })
}

fn class(alloc: Global) -> Result<Definition, NoMemory> {
    Ok(Definition::NewClass {
        name: text(alloc, "Doc")?,
        parent: Some(text(alloc, "V")?),
    })
}

// Two bags of a vertex.
fn names(alloc: Global) -> Result<BagNameList, NoMemory> {
    let mut names = BagNameList::new(alloc);
    for (vertex, dir) in [(FIRST, Dir::Out), (TEMP, Dir::Into)] {
        names.push(BagName {
            vertex,
            dir,
            class: text(alloc, "Knows")?,
        })?;
    }
    Ok(names)
}

fn is_copied(definition: Result<Definition, NoMemory>) -> bool {
    match definition {
        Ok(definition) => definition.copy().is_ok(),
        Err(_) => false,
    }
}

fn are_names_copied(alloc: Global) -> bool {
    match names(alloc) {
        Ok(names) => names.copy().is_ok(),
        Err(_) => false,
    }
}

fn are_bags_copied(alloc: Global) -> bool {
    match rids(alloc, &[FIRST, TEMP]) {
        Ok(rids) => Bag::Embedded(rids).copy().is_ok()
            && Bag::Tree { root: 7, size: 81 }.copy().is_ok(),
        Err(_) => false,
    }
}

// What a copy is its clause says, and not that one comes.
#[test]
fn copies_come(rt: HostRuntime) {
    assert!(rt; is_copied(class(rt.alloc())));
    assert!(rt; is_copied(property(rt.alloc())));
    assert!(rt; is_copied(index(rt.alloc())));
    assert!(rt; are_names_copied(rt.alloc()));
    assert!(rt; are_bags_copied(rt.alloc()));
}

// A byte and two more are written after the first.
fn bytes_grow(alloc: Global) -> bool {
    let Ok(mut bytes) = Blob::from_slice(alloc, &[1]) else {
        return false;
    };
    bytes.push(255).is_ok()
        && bytes.extend_from_slice(&[0, 2]).is_ok()
        && bytes.as_slice() == [1, 255, 0, 2].as_slice()
}

fn texts_grow(alloc: Global) -> bool {
    let Ok(mut said) = text(alloc, "nä") else {
        return false;
    };
    said.push_str("").is_ok() && said.push_str("h\0").is_ok() && said.as_str() == "näh\0"
}

#[test]
fn bytes_and_texts_grow(rt: HostRuntime) {
    assert!(rt; bytes_grow(rt.alloc()));
    assert!(rt; texts_grow(rt.alloc()));
}

#[test]
fn no_gate_holds(rt: HostRuntime) {
    NoGate.pass(GateStep::Flush { part: 7 });
    assert!(rt; NoGate == NoGate);
}
