// What the options of a command line stand for.
ghost use Rattle.std.specs.Prelude.{◌≡◌};
ghost use Rattle.x_line.specs.LineValues.{named_kind, given, is_valid, other_of};
ghost use Rattle.x_line.specs.Values.{events_of, role_of, side_of};
ghost use Rattle.x_values.specs.Words.{count_of, ident_of, key_name_of, key_of, label_of, number_of, pair_of, one_or_two_of};

use crate::line::Line;
use crate::opt::Opt;
use crate::order_kind::OrderKind;
use crate::values;
use x_base::{Count, Ident, KeyName, Label, Role, Side};
use x_mac::Pair;

impl Line<'_> {
    /// The kind of order that the line names.
    pub(crate) fn kind(&self) -> Option<OrderKind>
        ensures { result ≡ named_kind self.now }
    {
        OrderKind::named(self.word()?)
    }

    pub(crate) fn ident(&self, opt: Opt) -> Option<Ident>
        ensures { result ≡ given ident_of opt self.now }
    {
        x_values::read_ident(self.text(opt)?.as_bytes())
    }

    pub(crate) fn label(&self, opt: Opt) -> Option<Label>
        ensures { result ≡ given label_of opt self.now }
    {
        x_values::read_label(self.text(opt)?.as_bytes())
    }

    pub(crate) fn role(&self) -> Option<Role>
        ensures { result ≡ given role_of Opt.Role self.now }
    {
        values::role(self.text(Opt::Role)?)
    }

    /// The generator's pair of keys.
    pub(crate) fn generator_pair(&self) -> Option<Pair>
        ensures { result ≡ given pair_of Opt.Genkey self.now }
    {
        x_values::read_pair(self.text(Opt::Genkey)?.as_bytes())
    }

    /// The generator's seed V.
    pub(crate) fn generator_seed(&self) -> Option<u64>
        ensures { result ≡ given key_of Opt.Genseed self.now }
    {
        x_values::read_key(self.text(Opt::Genseed)?.as_bytes())
    }

    pub(crate) fn side(&self) -> Option<Side>
        ensures { result ≡ given side_of Opt.Side self.now }
    {
        values::side(self.text(Opt::Side)?)
    }

    /// The key-encrypting key that is loaded.
    pub(crate) fn loaded_pair(&self) -> Option<Pair>
        ensures { result ≡ given one_or_two_of Opt.Key self.now }
    {
        x_values::read_one_or_two(self.text(Opt::Key)?.as_bytes())
    }

    pub(crate) fn name(&self) -> Option<KeyName>
        ensures { result ≡ given key_name_of Opt.Name self.now }
    {
        x_values::read_key_name(self.text(Opt::Name)?.as_bytes())
    }

    pub(crate) fn seed(&self) -> Option<u64>
        ensures { result ≡ given number_of Opt.Seed self.now }
    {
        x_values::read_decimal_number(self.text(Opt::Seed)?.as_bytes())
    }

    pub(crate) fn events(&self) -> Option<u32>
        ensures { result ≡ given events_of Opt.Events self.now }
    {
        values::events(self.text(Opt::Events)?.as_bytes())
    }

    /// An identity that isn't the party's.
    pub(crate) fn other(&self, opt: Opt) -> Option<Ident>
        ensures { result ≡ other_of opt self.now }
    {
        values::other_than(self.ident(Opt::Party), self.ident(opt)?)
    }

    pub(crate) fn amount(&self) -> Option<Count>
        ensures { result ≡ given count_of Opt.Amount self.now }
    {
        x_values::read_count(self.text(Opt::Amount)?.as_bytes())
    }

    /// Whether the value of the option stands for something; a flag has none.
    pub(crate) fn is_valid(&self, opt: Opt) -> bool
        ensures { result ≡ is_valid opt self.now }
    {
        match opt {
            Opt::Party | Opt::Peer | Opt::Ultimate => self.ident(opt).is_some(),
            Opt::Label | Opt::New => self.label(opt).is_some(),
            Opt::Role => self.role().is_some(),
            Opt::Genkey => self.generator_pair().is_some(),
            Opt::Genseed => self.generator_seed().is_some(),
            Opt::Side => self.side().is_some(),
            Opt::Key => self.loaded_pair().is_some(),
            Opt::Name => self.name().is_some(),
            Opt::Seed => self.seed().is_some(),
            Opt::Events => self.events().is_some(),
            Opt::Spool | Opt::Mirror | Opt::Ledger => self.other(opt).is_some(),
            Opt::Amount => self.amount().is_some(),
            Opt::Single | Opt::Tell => true,
        }
    }
}
