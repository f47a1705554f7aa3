#![tactic(auto)]

ghost use Rattle.std.specs.Prelude.{◌≡◌, Some};
ghost use Rattle.fault.specs.declared.Notice.{Notice as NoticeOf};
ghost use Rattle.fault.specs.Layers.{layer_name};

use std::fmt;

/// The part of the product that found a fault.
#[derive(Clone, Copy, Debug, PartialEq, Eq)]
pub enum Layer {
    Lock,
    Record,
    Replay,
    Program,
}

impl Layer {
    // Public, and the text that `Display` writes.
    /// The layer's name as it is printed.
    pub fn name(self) -> &'static str
        ensures { result.now ≡ layer_name self }
    {
        match self {
            Layer::Lock => "lock",
            Layer::Record => "record",
            Layer::Replay => "replay",
            Layer::Program => "program",
        }
    }
}

impl fmt::Display for Layer {
    ghost output = { λ layer. Some (layer_name layer) };

    fn fmt<W: fmt::Write>(&self, f: &mut fmt::Formatter<W>) -> fmt::Result {
        f.write_str(self.name())
    }
}

/// What a fault tells.
#[derive(Clone, Copy, Debug, PartialEq, Eq)]
pub struct Notice {
    /// The number of the fault, one for each rule that was broken.
    pub number: u8,
    /// The place of the faulty byte, absent where no bytes were handed in.
    pub byte: Option<usize>,
    /// The layer that refused.
    pub layer: Layer,
}

/// Why a call was refused.
pub trait Fault {
    ghost told: { Self → NoticeOf };

    /// All that the fault tells.
    fn notice(&self) -> Notice
        ensures { result ≡ told self.now };

    /// The number of the fault, one for each rule that was broken.
    fn number(&self) -> u8
        ensures { result ≡ (told self.now).number }
    {
        self.notice().number
    }

    /// The place of the faulty byte, absent where no bytes were handed in.
    fn byte(&self) -> Option<usize>
        ensures { result ≡ (told self.now).byte }
    {
        self.notice().byte
    }

    /// The layer that refused.
    fn layer(&self) -> Layer
        ensures { result ≡ (told self.now).layer }
    {
        self.notice().layer
    }
}
