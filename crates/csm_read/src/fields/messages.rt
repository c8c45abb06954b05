// A message of the fields that came.
ghost use Rattle.std.specs.Prelude.{IfOk, IsSome};
ghost use Rattle.csm_grammar.specs.declared.form.Form.TheVariants.{F1, F2, F3, F4, F5, F6, F7, F8, F9, F10, F11, F12, F13};
ghost use Rattle.csm_read.specs.Building.{ArePresent, IsSecondPresent, IsBuilt};
ghost use Rattle.csm_read.specs.Denoting.{second_value};

use crate::fields::Fields;
use csm_grammar::{Dsm, Ers, Esm, Form, Ksm, KsmBody, Message, NewKk, Rfs, Rsi, Rsm, Rtr, Tag};
use std::alloc::Global;
use x_base::NoMemory;

impl Fields<'_> {
    fn rsi(&self) -> Message
        requires { ArePresent self.now.slots F1 }
        ensures { IsBuilt self.now.slots F1 result }
    {
        Message::Rsi(Rsi {
            receiver: self.ident(Tag::Rcv),
            originator: self.ident(Tag::Org),
            service: self.service(Tag::Svr),
            ultimate: self.ident_if_any(Tag::Idu),
        })
    }

    fn rfs(&self) -> Message
        requires { ArePresent self.now.slots F2 }
        ensures { IsBuilt self.now.slots F2 result }
    {
        Message::Rfs(Rfs {
            receiver: self.ident(Tag::Rcv),
            originator: self.ident(Tag::Org),
            ultimate: self.ident(Tag::Idu),
            kd: self.key(Tag::Kd),
            cta: self.count(Tag::Cta),
        })
    }

    fn rtr(&self, alloc: Global) -> Result<Message, NoMemory>
        requires { ArePresent self.now.slots F3 }
        ensures { IfOk result (IsBuilt self.now.slots F3) }
    {
        let extras = self.extras(alloc)?;
        Ok(Message::Rtr(Rtr {
            receiver: self.ident(Tag::Rcv),
            originator: self.ident(Tag::Org),
            ultimate: self.ident(Tag::Idu),
            kd: None,
            kdu: self.key(Tag::Kdu),
            ctb: self.count(Tag::Ctb),
            extras,
        }))
    }

    fn rtr_with_key(&self, alloc: Global) -> Result<Message, NoMemory>
        requires { ArePresent self.now.slots F4 }
        ensures { IfOk result (IsBuilt self.now.slots F4) }
    {
        let extras = self.extras(alloc)?;
        Ok(Message::Rtr(Rtr {
            receiver: self.ident(Tag::Rcv),
            originator: self.ident(Tag::Org),
            ultimate: self.ident(Tag::Idu),
            kd: Some((self.key(Tag::Kd), self.count(Tag::Cta))),
            kdu: self.key(Tag::Kdu),
            ctb: self.count(Tag::Ctb),
            extras,
        }))
    }

    fn ksm(&self, alloc: Global) -> Result<Message, NoMemory>
        requires { ArePresent self.now.slots F5 }
        ensures { IfOk result (IsBuilt self.now.slots F5) }
    {
        let extras = self.extras(alloc)?;
        Ok(Message::Ksm(Ksm {
            receiver: self.ident(Tag::Rcv),
            originator: self.ident(Tag::Org),
            body: KsmBody::Direct {
                idk2: self.label_if_any(Tag::Idk2),
                new: None,
                kd: self.key(Tag::Kd),
                ctp: self.count(Tag::Ctp),
            },
            extras,
        }))
    }

    fn ksm_with_pair(&self, alloc: Global) -> Result<Message, NoMemory>
        requires { ArePresent self.now.slots F6 }
        ensures { IfOk result (IsBuilt self.now.slots F6) }
    {
        let (left, right) = self.pair();
        let extras = self.extras(alloc)?;
        Ok(Message::Ksm(Ksm {
            receiver: self.ident(Tag::Rcv),
            originator: self.ident(Tag::Org),
            body: KsmBody::Direct {
                idk2: self.label_if_any(Tag::Idk2),
                new: Some((self.label(Tag::Idk1), NewKk::Double(left, right))),
                kd: self.key(Tag::Kd),
                ctp: self.count(Tag::Ctp),
            },
            extras,
        }))
    }

    fn ksm_with_key(&self, alloc: Global) -> Result<Message, NoMemory>
        requires { ArePresent self.now.slots F7 }
        ensures { IfOk result (IsBuilt self.now.slots F7) }
    {
        let extras = self.extras(alloc)?;
        Ok(Message::Ksm(Ksm {
            receiver: self.ident(Tag::Rcv),
            originator: self.ident(Tag::Org),
            body: KsmBody::Direct {
                idk2: self.label_if_any(Tag::Idk2),
                new: Some((self.label(Tag::Idk1), NewKk::Single(self.key(Tag::Kk)))),
                kd: self.key(Tag::Kd),
                ctp: self.count(Tag::Ctp),
            },
            extras,
        }))
    }

    fn ksm_of_centre(&self, alloc: Global) -> Result<Message, NoMemory>
        requires { ArePresent self.now.slots F8 }
        ensures { IfOk result (IsBuilt self.now.slots F8) }
    {
        let extras = self.extras(alloc)?;
        Ok(Message::Ksm(Ksm {
            receiver: self.ident(Tag::Rcv),
            originator: self.ident(Tag::Org),
            body: KsmBody::Centre {
                centre: self.ident(Tag::Idc),
                kdu: self.key(Tag::Kdu),
                ctb: self.count(Tag::Ctb),
            },
            extras,
        }))
    }

    // A function of its own, so that the other messages don't pay for its locals.
    #[inline(never)]
    fn ksm_with_two_keys(&self, alloc: Global) -> Result<Message, NoMemory>
        requires present { ArePresent self.now.slots F13 }
        requires second { IsSome (second_value self.now.slots) }
        ensures { IfOk result (IsBuilt self.now.slots F13) }
    {
        let extras = self.extras(alloc)?;
        Ok(Message::Ksm(Ksm {
            receiver: self.ident(Tag::Rcv),
            originator: self.ident(Tag::Org),
            body: KsmBody::Twin {
                idk2: self.label_if_any(Tag::Idk2),
                first: self.key(Tag::Kd),
                second: self.second_key(),
                ctp: self.count(Tag::Ctp),
            },
            extras,
        }))
    }

    fn rsm(&self, alloc: Global) -> Result<Message, NoMemory>
        requires { ArePresent self.now.slots F9 }
        ensures { IfOk result (IsBuilt self.now.slots F9) }
    {
        let extras = self.extras(alloc)?;
        Ok(Message::Rsm(Rsm {
            receiver: self.ident(Tag::Rcv),
            originator: self.ident(Tag::Org),
            idd: self.name_if_any(Tag::Idd),
            extras,
        }))
    }

    fn ers(&self, alloc: Global) -> Result<Message, NoMemory>
        requires { ArePresent self.now.slots F10 }
        ensures { IfOk result (IsBuilt self.now.slots F10) }
    {
        let erf = self.reason(alloc)?;
        Ok(Message::Ers(Ers {
            receiver: self.ident(Tag::Rcv),
            originator: self.ident(Tag::Org),
            ultimate: self.ident(Tag::Idu),
            ctr: self.count(Tag::Ctr),
            erf,
        }))
    }

    fn esm(&self, alloc: Global) -> Result<Message, NoMemory>
        requires { ArePresent self.now.slots F11 }
        ensures { IfOk result (IsBuilt self.now.slots F11) }
    {
        let erf = self.reason(alloc)?;
        Ok(Message::Esm(Esm {
            receiver: self.ident(Tag::Rcv),
            originator: self.ident(Tag::Org),
            erf,
            ctp: self.count_if_any(Tag::Ctp),
            cta: self.count_if_any(Tag::Cta),
            ctb: self.count_if_any(Tag::Ctb),
            ctr: self.count_if_any(Tag::Ctr),
        }))
    }

    fn dsm(&self) -> Message
        requires { ArePresent self.now.slots F12 }
        ensures { IsBuilt self.now.slots F12 result }
    {
        Message::Dsm(Dsm {
            receiver: self.ident(Tag::Rcv),
            originator: self.ident(Tag::Org),
            idd: self.name(Tag::Idd),
            ida: self.name_if_any(Tag::Ida),
        })
    }

    /// The message of the form.
    pub fn message(&self, alloc: Global, form: Form) -> Result<Message, NoMemory>
        requires present { ArePresent self.now.slots form }
        requires second { IsSecondPresent self.now.slots form }
        ensures { IfOk result (IsBuilt self.now.slots form) }
    {
        match form {
            Form::F1 => Ok(self.rsi()),
            Form::F2 => Ok(self.rfs()),
            Form::F3 => self.rtr(alloc),
            Form::F4 => self.rtr_with_key(alloc),
            Form::F5 => self.ksm(alloc),
            Form::F6 => self.ksm_with_pair(alloc),
            Form::F7 => self.ksm_with_key(alloc),
            Form::F8 => self.ksm_of_centre(alloc),
            Form::F13 => self.ksm_with_two_keys(alloc),
            Form::F9 => self.rsm(alloc),
            Form::F10 => self.ers(alloc),
            Form::F11 => self.esm(alloc),
            Form::F12 => Ok(self.dsm()),
        }
    }
}
