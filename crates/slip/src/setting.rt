ghost use Rattle.std.specs.Prelude.{Some};
ghost use Rattle.slip.specs.Texts.{port_text, side_text, setting_text};

use label::Label;
use std::fmt;

// One side of a cabinet's switch: a span, and the label of the channel on it.
#[derive(Clone, Copy, PartialEq, Eq, Debug)]
pub struct Port {
    pub span: u16,
    pub label: Label,
}

// What one node's cabinet is told: which input it is to join to which output. A path begins at a node
// without an input, and ends at one without an output.
#[derive(Clone, Copy, PartialEq, Eq, Debug)]
pub struct Setting {
    pub node: u8,
    pub input: Option<Port>,
    pub output: Option<Port>,
}

// The node of a setting that tells no cabinet anything.
pub const NO_NODE: u8 = 255;

// What stands in a table behind the last setting.
pub const BLANK: Setting = Setting {
    node: NO_NODE,
    input: None,
    output: None,
};

impl fmt::Display for Port {
    ghost output = { λ p. Some (port_text p) };

    fn fmt<W: fmt::Write>(&self, f: &mut fmt::Formatter<W>) -> fmt::Result {
        write!(f, "{} {}", self.span, self.label)
    }
}

// A side of a setting, as it is printed whether or not there is a port.
#[derive(Clone, Copy)]
struct Side(Option<Port>);

impl fmt::Display for Side {
    ghost output = { λ s. Some (side_text s.0) };

    fn fmt<W: fmt::Write>(&self, f: &mut fmt::Formatter<W>) -> fmt::Result {
        match self.0 {
            None => f.write_str("- -"),
            Some(port) => write!(f, "{port}"),
        }
    }
}

impl fmt::Display for Setting {
    ghost output = { λ s. Some (setting_text s) };

    fn fmt<W: fmt::Write>(&self, f: &mut fmt::Formatter<W>) -> fmt::Result {
        let input = Side(self.input);
        let output = Side(self.output);
        write!(f, "{} {input} {output}", self.node)
    }
}
