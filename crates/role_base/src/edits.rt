// The edits that rows have in common.
ghost use Rattle.std.specs.Prelude.{◌≡◌, ◌++◌, IfOk};
ghost use Rattle.role_base.specs.Exchanges.{readied, dropped, ended};

use party_state::{Edit, KeyRec, KeyStatus, LinkRec};
use std::alloc::Global;
use x_base::NoMemory;

/// A list of these edits.
pub fn list_of<const N: usize>(alloc: Global, edits: [Edit; N]) -> Result<Vec<Edit>, NoMemory>
    ensures { IfOk result (λ list. list.items ≡ edits.entry) }
{
    match Vec::from_array(alloc, edits) {
        Ok(list) => Ok(list),
        Err(_) => Err(NoMemory),
    }
}

/// The edits of the two lists, one after the other. An empty one takes no memory.
pub fn joined(mut front: Vec<Edit>, mut back: Vec<Edit>) -> Result<Vec<Edit>, NoMemory>
    ensures { IfOk result (λ edits. edits.items ≡ front.items ++ back.items) }
{
    if front.is_empty() {
        return Ok(back);
    }
    front.append(&mut back)?;
    Ok(front)
}

/// A new key-encrypting key that its recipient holds is ready.
pub fn readied(alloc: Global, link: Option<LinkRec>) -> Result<Vec<Edit>, NoMemory>
    ensures { IfOk result (λ edits. edits.items ≡ readied link) }
{
    match link {
        Some(link) => list_of(
            alloc,
            [Edit::PutLink(LinkRec {
                ready: true,
                ..link
            })],
        ),
        None => Ok(Vec::new(alloc)),
    }
}

/// One that its recipient didn't take goes.
pub fn dropped(alloc: Global, link: Option<LinkRec>) -> Result<Vec<Edit>, NoMemory>
    ensures { IfOk result (λ edits. edits.items ≡ dropped link) }
{
    match link {
        Some(
            LinkRec {
                peer,
                label,
                side,
                ..
            },
        ) => list_of(alloc, [Edit::DropLink { peer, label, side }]),
        None => Ok(Vec::new(alloc)),
    }
}

/// A key ends, where its record stands.
pub fn ended(alloc: Global, key: Option<KeyRec>) -> Result<Vec<Edit>, NoMemory>
    ensures { IfOk result (λ edits. edits.items ≡ ended key) }
{
    match key {
        Some(key) => {
            let status = KeyStatus::Ended;
            list_of(alloc, [Edit::PutKey(KeyRec { status, ..key })])
        }
        None => Ok(Vec::new(alloc)),
    }
}
