ghost use Rattle.std.specs.Prelude.{◌≡◌, ◌<◌, bytes_eq, find};
ghost use Rattle.csm_grammar.specs.Tags.{tag_name, tag_of, tag_place, same_tag, is_closing, is_unsupported};

/// The tag of a field (ANSI X9.17; `P` is this project's own), in the writer's order, the unsupported
/// ones behind. `DoubleKk` is `*KK` and `DoubleKku` is `*KKU`.
#[derive(Clone, Copy, PartialEq, Eq)]
pub enum Tag {
    Mcl,
    Rcv,
    Org,
    Svr,
    Idu,
    Idc,
    Idd,
    Ida,
    Idk1,
    Idk2,
    DoubleKk,
    Kk,
    Kd,
    Kdu,
    Ctp,
    Cta,
    Ctb,
    Ctr,
    Erf,
    Iv,
    Edk,
    P,
    Mac,
    Edc,
    Kku,
    DoubleKku,
    Nos,
}

// the tags of four bytes
const FOUR: [Tag; 3] = [Tag::Idk1, Tag::Idk2, Tag::DoubleKku];

impl Tag {
    /// The tag as it is written.
    pub fn name(self) -> &'static [u8]
        ensures { result.now ≡ tag_name self }
    {
        match self {
            Tag::Mcl => b"MCL",
            Tag::Rcv => b"RCV",
            Tag::Org => b"ORG",
            Tag::Svr => b"SVR",
            Tag::Idu => b"IDU",
            Tag::Idc => b"IDC",
            Tag::Idd => b"IDD",
            Tag::Ida => b"IDA",
            Tag::Idk1 => b"IDK1",
            Tag::Idk2 => b"IDK2",
            Tag::DoubleKk => b"*KK",
            Tag::Kk => b"KK",
            Tag::Kd => b"KD",
            Tag::Kdu => b"KDU",
            Tag::Ctp => b"CTP",
            Tag::Cta => b"CTA",
            Tag::Ctb => b"CTB",
            Tag::Ctr => b"CTR",
            Tag::Erf => b"ERF",
            Tag::Iv => b"IV",
            Tag::Edk => b"EDK",
            Tag::P => b"P",
            Tag::Mac => b"MAC",
            Tag::Edc => b"EDC",
            Tag::Kku => b"KKU",
            Tag::DoubleKku => b"*KKU",
            Tag::Nos => b"NOS",
        }
    }

    /// The tag that is written so.
    pub fn of(name: &[u8]) -> Option<Tag>
        ensures { result ≡ tag_of name.now }
    {
        match name {
            b"MCL" => Some(Tag::Mcl),
            b"RCV" => Some(Tag::Rcv),
            b"ORG" => Some(Tag::Org),
            b"SVR" => Some(Tag::Svr),
            b"IDU" => Some(Tag::Idu),
            b"IDC" => Some(Tag::Idc),
            b"IDD" => Some(Tag::Idd),
            b"IDA" => Some(Tag::Ida),
            b"*KK" => Some(Tag::DoubleKk),
            b"KK" => Some(Tag::Kk),
            b"KD" => Some(Tag::Kd),
            b"KDU" => Some(Tag::Kdu),
            b"CTP" => Some(Tag::Ctp),
            b"CTA" => Some(Tag::Cta),
            b"CTB" => Some(Tag::Ctb),
            b"CTR" => Some(Tag::Ctr),
            b"ERF" => Some(Tag::Erf),
            b"IV" => Some(Tag::Iv),
            b"EDK" => Some(Tag::Edk),
            b"P" => Some(Tag::P),
            b"MAC" => Some(Tag::Mac),
            b"EDC" => Some(Tag::Edc),
            b"KKU" => Some(Tag::Kku),
            b"NOS" => Some(Tag::Nos),
            [_, _, _, _] => Tag::among(&FOUR, name),
            _ => None,
        }
    }

    /// The one of the tags that is written so.
    fn among(tags: &[Tag], name: &[u8]) -> Option<Tag>
        ensures { result ≡ find (λ t. bytes_eq (tag_name t) name.now) tags.now }
    {
        tags.iter().copied().find(|tag| tag.name() == name)
    }

    /// How many tags stand before it in the order of the variants.
    pub fn place(self) -> usize
        ensures place { result ≡ tag_place self }
        ensures small { result < 27 }
    {
        self as usize
    }

    /// Whether it is the other tag.
    pub fn is(self, other: Tag) -> bool
        ensures { result ≡ same_tag self other }
    {
        self.place() == other.place()
    }

    /// Whether it is that of a code: MAC or EDC.
    pub fn is_closing(self) -> bool
        ensures { result ≡ is_closing self }
    {
        matches!(self, Tag::Mac | Tag::Edc)
    }

    /// Whether it is a tag of ANSI X9.17 that this project doesn't take.
    pub fn is_unsupported(self) -> bool
        ensures { result ≡ is_unsupported self }
    {
        matches!(self, Tag::Kku | Tag::DoubleKku | Tag::Nos)
    }
}
