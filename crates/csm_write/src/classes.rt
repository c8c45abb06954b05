// The fields of a message in the writer's order, by class.
ghost use Rattle.std.specs.Prelude.{◌≡◌, ◌++◌, [], ℕ, codes, OnOk};
ghost use Rattle.csm_grammar.specs.declared.tag.Tag.TheVariants.{Mcl, Idk1, Kd, Cta};
ghost use Rattle.csm_grammar.specs.declared.message.Message.TheVariants as messages;
ghost use Rattle.csm_grammar.specs.declared.message.KsmBody.TheVariants as bodies;
ghost use Rattle.csm_grammar.specs.Classes.{class_text};
ghost use Rattle.csm_grammar.specs.Values.Value.{AText, ANumber};
ghost use Rattle.csm_grammar.specs.Messages.{form_of, fields_of, body_fields, extra_fields, new_fields, parties, if_any};
ghost use Rattle.csm_grammar.specs.Spelling.{field_text};
ghost use Rattle.csm_write.specs.Writing.{Adds};

use crate::writer::Writer;
use csm_grammar::{Dsm, Ers, Esm, Extras, Ksm, KsmBody, Message, NewKk, Rfs, Rsi, Rsm, Rtr, Tag};
use x_base::{Count, Ident, Label, NoMemory};

/// What the text of a message begins with: its class behind the opening of every text.
pub fn opening(message: &Message) -> &'static [u8]
    ensures { result.now ≡ codes "CSM(" ++ (field_text (record { tag = Mcl; contents = class_text (form_of message.now) }) ++ codes " ") }
{
    match message {
        Message::Rsi(_) => b"CSM(MCL/RSI ",
        Message::Rfs(_) => b"CSM(MCL/RFS ",
        Message::Rtr(_) => b"CSM(MCL/RTR ",
        Message::Ksm(_) => b"CSM(MCL/KSM ",
        Message::Rsm(_) => b"CSM(MCL/RSM ",
        Message::Ers(_) => b"CSM(MCL/ERS ",
        Message::Esm(_) => b"CSM(MCL/ESM ",
        Message::Dsm(_) => b"CSM(MCL/DSM ",
    }
}

impl Writer {
    /// All fields but the class and the code.
    pub fn fields(&mut self, message: &Message) -> Result<(), NoMemory>
        ensures { OnOk result (Adds self.old self.new (fields_of message.now)) }
    {
        match message {
            Message::Rsi(message) => self.rsi(message),
            Message::Rfs(message) => self.rfs(message),
            Message::Rtr(message) => self.rtr(message),
            Message::Ksm(message) => self.ksm(message),
            Message::Rsm(message) => self.rsm(message),
            Message::Ers(message) => self.ers(message),
            Message::Esm(message) => self.esm(message),
            Message::Dsm(message) => self.dsm(message),
        }
    }

    fn parties(&mut self, receiver: &Ident, originator: &Ident) -> Result<(), NoMemory>
        ensures { OnOk result (Adds self.old self.new (parties receiver.now originator.now [])) }
    {
        self.ident(Tag::Rcv, receiver)?;
        self.ident(Tag::Org, originator)
    }

    fn extras(&mut self, extras: &Extras) -> Result<(), NoMemory>
        ensures { OnOk result (Adds self.old self.new (extra_fields extras.now)) }
    {
        self.text_if_any(Tag::Iv, &extras.iv)?;
        self.text_if_any(Tag::Edk, &extras.edk)?;
        self.text_if_any(Tag::P, &extras.p)
    }

    fn rsi(&mut self, message: &Rsi) -> Result<(), NoMemory>
        ensures { OnOk result (Adds self.old self.new (fields_of (messages.Rsi message.now))) }
    {
        self.parties(&message.receiver, &message.originator)?;
        self.service(message.service)?;
        self.ident_if_any(Tag::Idu, &message.ultimate)
    }

    fn rfs(&mut self, message: &Rfs) -> Result<(), NoMemory>
        ensures { OnOk result (Adds self.old self.new (fields_of (messages.Rfs message.now))) }
    {
        self.parties(&message.receiver, &message.originator)?;
        self.ident(Tag::Idu, &message.ultimate)?;
        self.key(Tag::Kd, message.kd)?;
        self.count(Tag::Cta, &message.cta)
    }

    fn rtr(&mut self, message: &Rtr) -> Result<(), NoMemory>
        ensures { OnOk result (Adds self.old self.new (fields_of (messages.Rtr message.now))) }
    {
        self.parties(&message.receiver, &message.originator)?;
        self.ident(Tag::Idu, &message.ultimate)?;
        self.returned_key(&message.kd)?;
        self.key(Tag::Kdu, message.kdu)?;
        self.returned_count(&message.kd)?;
        self.count(Tag::Ctb, &message.ctb)?;
        self.extras(&message.extras)
    }

    fn returned_key(&mut self, kd: &Option<(u64, Count)>) -> Result<(), NoMemory>
        ensures { OnOk result (Adds self.old self.new (if_any Kd (λ (k : ℕ × ℕ). ANumber k.0) kd.now)) }
    {
        match kd {
            Some((key, _)) => self.key(Tag::Kd, *key),
            None => Ok(()),
        }
    }

    fn returned_count(&mut self, kd: &Option<(u64, Count)>) -> Result<(), NoMemory>
        ensures { OnOk result (Adds self.old self.new (if_any Cta (λ (k : ℕ × ℕ). ANumber k.1) kd.now)) }
    {
        match kd {
            Some((_, count)) => self.count(Tag::Cta, count),
            None => Ok(()),
        }
    }

    fn ksm(&mut self, message: &Ksm) -> Result<(), NoMemory>
        ensures { OnOk result (Adds self.old self.new (fields_of (messages.Ksm message.now))) }
    {
        self.parties(&message.receiver, &message.originator)?;
        self.body(&message.body)?;
        self.extras(&message.extras)
    }

    fn body(&mut self, body: &KsmBody) -> Result<(), NoMemory>
        ensures { OnOk result (Adds self.old self.new (body_fields body.now)) }
    {
        match body {
            KsmBody::Direct { idk2, new, kd, ctp } => self.direct(idk2, new, *kd, ctp),
            KsmBody::Twin {
                idk2,
                first,
                second,
                ctp,
            } => self.twin(idk2, *first, *second, ctp),
            KsmBody::Centre { centre, kdu, ctb } => self.through_centre(centre, *kdu, ctb),
        }
    }

    fn direct(
        &mut self,
        idk2: &Option<Label>,
        new: &Option<(Label, NewKk)>,
        kd: u64,
        ctp: &Count,
    ) -> Result<(), NoMemory>
        ensures { OnOk result (Adds self.old self.new (body_fields (bodies.Direct idk2.now new.now kd ctp.now))) }
    {
        self.new_label(new)?;
        self.label_if_any(Tag::Idk2, idk2)?;
        self.new_key(new)?;
        self.key(Tag::Kd, kd)?;
        self.count(Tag::Ctp, ctp)
    }

    fn twin(
        &mut self,
        idk2: &Option<Label>,
        first: u64,
        second: u64,
        ctp: &Count,
    ) -> Result<(), NoMemory>
        ensures { OnOk result (Adds self.old self.new (body_fields (bodies.Twin idk2.now first second ctp.now))) }
    {
        self.label_if_any(Tag::Idk2, idk2)?;
        self.key(Tag::Kd, first)?;
        self.key(Tag::Kd, second)?;
        self.count(Tag::Ctp, ctp)
    }

    fn new_label(&mut self, new: &Option<(Label, NewKk)>) -> Result<(), NoMemory>
        ensures { OnOk result (Adds self.old self.new (if_any Idk1 (λ n. AText n.0) new.now)) }
    {
        match new {
            Some((label, _)) => self.label(Tag::Idk1, label),
            None => Ok(()),
        }
    }

    fn new_key(&mut self, new: &Option<(Label, NewKk)>) -> Result<(), NoMemory>
        ensures { OnOk result (Adds self.old self.new (new_fields new.now)) }
    {
        match new {
            Some((_, NewKk::Double(left, right))) => self.pair(*left, *right),
            Some((_, NewKk::Single(key))) => self.key(Tag::Kk, *key),
            None => Ok(()),
        }
    }

    fn through_centre(&mut self, centre: &Ident, kdu: u64, ctb: &Count) -> Result<(), NoMemory>
        ensures { OnOk result (Adds self.old self.new (body_fields (bodies.Centre centre.now kdu ctb.now))) }
    {
        self.ident(Tag::Idc, centre)?;
        self.key(Tag::Kdu, kdu)?;
        self.count(Tag::Ctb, ctb)
    }

    fn rsm(&mut self, message: &Rsm) -> Result<(), NoMemory>
        ensures { OnOk result (Adds self.old self.new (fields_of (messages.Rsm message.now))) }
    {
        self.parties(&message.receiver, &message.originator)?;
        self.name_if_any(Tag::Idd, &message.idd)?;
        self.extras(&message.extras)
    }

    fn ers(&mut self, message: &Ers) -> Result<(), NoMemory>
        ensures { OnOk result (Adds self.old self.new (fields_of (messages.Ers message.now))) }
    {
        self.parties(&message.receiver, &message.originator)?;
        self.ident(Tag::Idu, &message.ultimate)?;
        self.count(Tag::Ctr, &message.ctr)?;
        self.reason(&message.erf)
    }

    fn esm(&mut self, message: &Esm) -> Result<(), NoMemory>
        ensures { OnOk result (Adds self.old self.new (fields_of (messages.Esm message.now))) }
    {
        self.parties(&message.receiver, &message.originator)?;
        self.count_if_any(Tag::Ctp, &message.ctp)?;
        self.count_if_any(Tag::Cta, &message.cta)?;
        self.count_if_any(Tag::Ctb, &message.ctb)?;
        self.count_if_any(Tag::Ctr, &message.ctr)?;
        self.reason(&message.erf)
    }

    fn dsm(&mut self, message: &Dsm) -> Result<(), NoMemory>
        ensures { OnOk result (Adds self.old self.new (fields_of (messages.Dsm message.now))) }
    {
        self.parties(&message.receiver, &message.originator)?;
        self.name(Tag::Idd, &message.idd)?;
        self.name_if_any(Tag::Ida, &message.ida)
    }
}
