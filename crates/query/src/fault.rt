// What is wrong with a query text: a fault in one of the three layers, each of which is tried on the whole text before the next.
ghost use Rattle.std.specs.Prelude.{◌≡◌};
ghost use Rattle.query.specs.Faults.{number_of, layer_of, place_of, word_of, layer_word};
ghost use Rattle.query.specs.declared.fault.Fault.TheVariants.{Letters, Grammar, Sense};

use grammar::GrammarFault;
use letters::LetterFault;
use sense::SenseFault;

#[derive(Clone, Copy, PartialEq, Eq, Debug)]
pub enum Layer {
    Letters,
    Grammar,
    Sense,
}

#[derive(Clone, Copy)]
pub enum Fault {
    Letters(LetterFault),
    Grammar(GrammarFault),
    Sense(SenseFault),
}

// The three `From` are written out, since `from_gives` lets a contract name what `?` makes of a fault.
impl From<LetterFault> for Fault {
    ghost from_gives = { λ e r. r ≡ Letters e };

    fn from(e: LetterFault) -> Fault {
        Fault::Letters(e)
    }
}

impl From<GrammarFault> for Fault {
    ghost from_gives = { λ e r. r ≡ Grammar e };

    fn from(e: GrammarFault) -> Fault {
        Fault::Grammar(e)
    }
}

impl From<SenseFault> for Fault {
    ghost from_gives = { λ e r. r ≡ Sense e };

    fn from(e: SenseFault) -> Fault {
        Fault::Sense(e)
    }
}

impl Layer {
    pub fn word(self) -> &'static str
        ensures { result.now ≡ layer_word self }
    {
        match self {
            Layer::Letters => "letters",
            Layer::Grammar => "grammar",
            Layer::Sense => "sense",
        }
    }
}

impl Fault {
    pub fn number(self) -> u8
        ensures { result ≡ number_of self }
    {
        match self {
            Fault::Letters(fault) => fault.number(),
            Fault::Grammar(fault) => fault.number(),
            Fault::Sense(fault) => fault.number(),
        }
    }

    pub fn layer(self) -> Layer
        ensures { result ≡ layer_of self }
    {
        match self {
            Fault::Letters(_) => Layer::Letters,
            Fault::Grammar(_) => Layer::Grammar,
            Fault::Sense(_) => Layer::Sense,
        }
    }

    // How many bytes of the text stand before what is wrong.
    pub fn place(self) -> usize
        ensures { result ≡ place_of self }
    {
        match self {
            Fault::Letters(fault) => fault.place(),
            Fault::Grammar(fault) => fault.place(),
            Fault::Sense(fault) => fault.place(),
        }
    }

    // What is wrong, in a word or two.
    pub fn word(self) -> &'static str
        ensures { result.now ≡ word_of self }
    {
        match self {
            Fault::Letters(LetterFault::StrayByte(_)) => "stray byte",
            Fault::Letters(LetterFault::LongNumber(_)) => "long number",
            Fault::Letters(LetterFault::LongText) => "long text",
            Fault::Grammar(GrammarFault::WrongToken(_)) => "wrong token",
            Fault::Grammar(GrammarFault::TooDeep(_)) => "too deep",
            Fault::Sense(SenseFault::UnknownKind(_)) => "unknown kind",
            Fault::Sense(SenseFault::Doubled(_)) => "doubled",
            Fault::Sense(SenseFault::Unbound(_)) => "unbound",
            Fault::Sense(SenseFault::Shape(_)) => "shape",
            Fault::Sense(SenseFault::ManyTests(_)) => "many tests",
            Fault::Sense(SenseFault::TwoNegatives(_)) => "two negatives",
            Fault::Sense(SenseFault::Window(_)) => "window",
        }
    }
}
