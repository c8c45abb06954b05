use x_base::{Count, Ident, KeyName, Label, Text};

/// The keys that a request asks for: a data key, two of them, a single or a double-length
/// key-encrypting key, alone or with a data key.
#[derive(Clone, Copy, PartialEq, Eq)]
pub enum Service {
    Kd,
    KdKd,
    Kk,
    DoubleKk,
    KkKd,
    DoubleKkKd,
}

/// Contents that are kept and not interpreted.
#[derive(Drop)]
pub struct Extras {
    pub iv: Option<Text>,
    pub edk: Option<Text>,
    pub p: Option<Text>,
}

/// An encrypted key-encrypting key, the left half of a double-length one first.
#[derive(Clone, Copy)]
pub enum NewKk {
    Double(u64, u64),
    Single(u64),
}

/// Request for service initiation.
#[derive(Drop)]
pub struct Rsi {
    pub receiver: Ident,
    pub originator: Ident,
    pub service: Service,
    pub ultimate: Option<Ident>,
}

/// Request for service.
#[derive(Drop)]
pub struct Rfs {
    pub receiver: Ident,
    pub originator: Ident,
    pub ultimate: Ident,
    /// The data key as encrypted for the centre; `cta` is its count.
    pub kd: u64,
    pub cta: Count,
}

/// Response to request.
#[derive(Drop)]
pub struct Rtr {
    pub receiver: Ident,
    pub originator: Ident,
    pub ultimate: Ident,
    /// The data key as encrypted for the receiver, and its count.
    pub kd: Option<(u64, Count)>,
    /// The data key as encrypted for the ultimate recipient; `ctb` is its count.
    pub kdu: u64,
    pub ctb: Count,
    pub extras: Extras,
}

/// The keys of a key service message, as encrypted, carried between two parties or through a
/// centre, and their counts.
#[derive(Drop)]
pub enum KsmBody {
    Direct {
        idk2: Option<Label>,
        new: Option<(Label, NewKk)>,
        kd: u64,
        ctp: Count,
    },
    /// Two data keys: `ctp` is the count of the first, and the second has the next one.
    Twin {
        idk2: Option<Label>,
        first: u64,
        second: u64,
        ctp: Count,
    },
    Centre {
        centre: Ident,
        kdu: u64,
        ctb: Count,
    },
}

/// Key service message.
#[derive(Drop)]
pub struct Ksm {
    pub receiver: Ident,
    pub originator: Ident,
    pub body: KsmBody,
    pub extras: Extras,
}

/// Response service message.
#[derive(Drop)]
pub struct Rsm {
    pub receiver: Ident,
    pub originator: Ident,
    pub idd: Option<KeyName>,
    pub extras: Extras,
}

/// Error recovery service.
#[derive(Drop)]
pub struct Ers {
    pub receiver: Ident,
    pub originator: Ident,
    pub ultimate: Ident,
    pub ctr: Count,
    pub erf: Text,
}

/// Error service message.
#[derive(Drop)]
pub struct Esm {
    pub receiver: Ident,
    pub originator: Ident,
    pub erf: Text,
    pub ctp: Option<Count>,
    pub cta: Option<Count>,
    pub ctb: Option<Count>,
    pub ctr: Option<Count>,
}

/// Disconnect service message.
#[derive(Drop)]
pub struct Dsm {
    pub receiver: Ident,
    pub originator: Ident,
    pub idd: KeyName,
    pub ida: Option<KeyName>,
}

/// A cryptographic service message, by its class.
#[derive(Drop)]
pub enum Message {
    Rsi(Rsi),
    Rfs(Rfs),
    Rtr(Rtr),
    Ksm(Ksm),
    Rsm(Rsm),
    Ers(Ers),
    Esm(Esm),
    Dsm(Dsm),
}
