// Edits that are to be kept, with the text of their frame.
ghost use Rattle.std.specs.Prelude.{◌≡◌, ◌≢◌, ◌≤◌, [], length, true, IfOk};
ghost use Rattle.key_journal.specs.Layout.{largest_body};
ghost use Rattle.party_state.specs.Ranges.{AreFitting};
ghost use Rattle.change_code.specs.Code.{code_of_change, most_edits};
ghost use Rattle.change_code.specs.Cost.{cost, fits, space_after};
ghost use Rattle.change_code.specs.Framed.{AreFramed, IsFramed, space_for};

use crate::encoding::encode_behind;
use crate::format::Format;
use crate::space::Space;
use key_journal::close_frame;
use party_state::Change;
use std::alloc::Global;
use std::marker::Model;
use x_base::{NoMemory, Text};

/// Edits that are to be kept in a format, with the text of their frame, or none without one.
#[derive(Drop)]
pub struct Framed {
    format: Format,
    change: Change,
    text: Option<Text>,
}

impl Model for Framed {
    ghost use Rattle.change_code.specs.Framed.{FramedEdits, AreFramed};

    ghost Value = { FramedEdits };

    ghost view = { λ f. record { format = f.format; edits = f.change } };

    ghost invariant = { λ f. AreFramed f.format f.change f.text };
}

/// The text of the frame of some edits.
fn frame_of(alloc: Global, format: Format, change: &Change) -> Result<Text, NoMemory>
    requires some { change.now ≢ [] }
    requires few { length change.now ≤ most_edits }
    requires fitting { AreFitting change.now }
    requires short { length (code_of_change format change.now) ≤ largest_body }
    ensures { IfOk result (λ text. IsFramed format change.now text) }
{
    let mut text = encode_behind(alloc, &[0, 0, 0, 0], format, change)?;
    close_frame(&mut text)?;
    Ok(text)
}

impl Framed {
    /// No edits. It takes no memory.
    pub fn none(alloc: Global, format: Format) -> Framed
        ensures { result ≡ record { format = format; edits = [] } }
    {
        Framed {
            format,
            change: Change::new(alloc),
            text: None,
        }
    }

    /// The edits of a change, with their frame where there are any.
    pub fn of(alloc: Global, format: Format, change: Change) -> Result<Framed, NoMemory>
        requires few { length change ≤ most_edits }
        requires fitting { AreFitting change }
        requires short { length (code_of_change format change) ≤ largest_body }
        ensures { IfOk result (λ f. f ≡ record { format = format; edits = change }) }
    {
        let text = if change.is_empty() {
            None
        } else {
            Some(frame_of(alloc, format, &change)?)
        };
        Ok(Framed {
            format,
            change,
            text,
        })
    }

    /// How many bytes of an area they take.
    fn cost(&self) -> u64
        ensures { result ≡ cost self.now.format self.now.edits }
    {
        match &self.text {
            Some(text) => text.bytes().len() as u64,
            None => 0,
        }
    }

    /// Whether they fit into so much room.
    pub fn fits(&self, room: u64) -> bool
        ensures { result ≡ fits (space_for self.now room) self.now.edits }
    {
        self.text.is_none() || self.cost() < room
    }

    /// The space that they leave of so much room.
    pub fn space_after(&self, room: u64) -> Space
        requires { fits (space_for self.now room) self.now.edits ≡ true }
        ensures { result ≡ space_after (space_for self.now room) self.now.edits }
    {
        Space {
            format: self.format,
            room: room - self.cost(),
        }
    }

    /// The edits, and the text of their frame.
    pub fn into_parts(self) -> (Change, Option<Text>)
        ensures change { result.0 ≡ self.edits }
        ensures text { AreFramed self.format self.edits result.1 }
    {
        (self.change, self.text)
    }
}
