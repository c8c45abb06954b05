// The class table, and what is computed from it (this project's profile).
ghost use Rattle.std.specs.Prelude.{◌≡◌, ◌∷◌};
ghost use Rattle.csm_grammar.specs.declared.tag.Tag.TheVariants.{Mcl};
ghost use Rattle.csm_grammar.specs.Classes.{required};

use crate::form::Form;
use crate::tag::Tag;

// a row for each form, with its place in the order in which forms are tried, and what it says of each
// tag in the writer's order: R required, T required twice, O optional, X refused
macro_rules! class_rows {
    ($view:ident $($argument:tt)*) => {
        $view! {
            $($argument)*
            [F1 0 R R R R O X X X X X X X X X X X X X X X X X X R X X X]
            [F2 1 R R R X R X X X X X X X R X X R X X X X X X R X X X X]
            [F3 2 R R R X R X X X X X X X X R X X R X X O O O R X X X X]
            [F4 3 R R R X R X X X X X X X R R X R R X X O O O R X X X X]
            [F5 4 R R R X X X X X X O X X R X R X X X X O O O R X X X X]
            [F6 5 R R R X X X X X R O R X R X R X X X X O O O R X X X X]
            [F7 6 R R R X X X X X R O X R R X R X X X X O O O R X X X X]
            [F8 7 R R R X X R X X X X X X X R X X R X X O O O R X X X X]
            [F13 8 R R R X X X X X X O X X T X R X X X X O O O R X X X X]
            [F9 9 R R R X X X O X X X X X X X X X X X X O O O R X X X X]
            [F10 10 R R R X R X X X X X X X X X X X X R R X X X R X X X X]
            [F11 11 R R R X X X X X X X X X X X O O O O R X X X O O X X X]
            [F12 12 R R R X X X R O X X X X X X X X X X X X X X R X X X X]
        }
    };
}

macro_rules! letter {
    (R) => {
        b'R'
    };
    (T) => {
        b'T'
    };
    (O) => {
        b'O'
    };
    (X) => {
        b'X'
    };
}

macro_rules! letters {
    ($([$form:ident $place:literal $($need:ident)*])*) => {
        [$($(letter!($need),)*)*]
    };
}

/// The letters of the table, row by row.
pub const TABLE: [u8; 351] = class_rows!(letters);

macro_rules! bit {
    ($place:literal X) => {
        0
    };
    ($place:literal $need:ident) => {
        1 << $place
    };
}

// for each column a bit for each form that has the tag
macro_rules! columns {
    ([$($done:tt)*] $([$form:ident $place:literal])*) => {
        [$($done)*]
    };
    ([$($done:tt)*] $([$form:ident $place:literal $need:ident $($needs:ident)*])*) => {
        columns!([$($done)* 0 $(| bit!($place $need))*,] $([$form $place $($needs)*])*)
    };
}

/// For each tag the forms that have it, a bit for each: the lowest is that of the first form.
pub const ALLOWING: [u16; 27] = class_rows!(columns []);

macro_rules! bit_of_two {
    ($place:literal T) => {
        1 << $place
    };
    ($place:literal $need:ident) => {
        0
    };
}

macro_rules! twice {
    ($([$form:ident $place:literal $($need:ident)*])*) => {
        0 $(| (0 $(| bit_of_two!($place $need))*))*
    };
}

/// The forms that have KD twice, a bit for each.
pub const TWICE: u16 = class_rows!(twice);

// the required tags of a row, without that of its code
macro_rules! listed {
    ([$($done:tt)*] [$($need:ident)*] []) => {
        &[$($done)*]
    };
    ([$($done:tt)*] [R $($need:ident)*] [$tag:ident $($tags:ident)*]) => {
        listed!([$($done)* Tag::$tag,] [$($need)*] [$($tags)*])
    };
    ([$($done:tt)*] [T $($need:ident)*] [$tag:ident $($tags:ident)*]) => {
        listed!([$($done)* Tag::$tag, Tag::$tag,] [$($need)*] [$($tags)*])
    };
    ([$($done:tt)*] [$other:ident $($need:ident)*] [$tag:ident $($tags:ident)*]) => {
        listed!([$($done)*] [$($need)*] [$($tags)*])
    };
}

macro_rules! required_by {
    ($form:ident $([$name:ident $place:literal $($need:ident)*])*) => {
        match $form {
            $(Form::$name => listed!(
                []
                [$($need)*]
                [Mcl Rcv Org Svr Idu Idc Idd Ida Idk1 Idk2 DoubleKk Kk Kd Kdu Ctp Cta Ctb Ctr Erf Iv Edk P]
            ),)*
        }
    };
}

impl Form {
    /// The tags that a message of the form must have beside its code, in the writer's order. One
    /// that it must have twice stands twice.
    pub fn required(self) -> &'static [Tag]
        ensures { result.now ≡ Mcl ∷ required self }
    {
        let form = self;
        class_rows!(required_by form)
    }
}
