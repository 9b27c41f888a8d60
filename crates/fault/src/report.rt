ghost use Rattle.std.specs.Prelude.{◌≡◌, Some};
ghost use Rattle.fault.specs.Reports.{report};
ghost use Rattle.fault.specs.Texts.{layer_text, report_text};
ghost use Rattle.fault.specs.declared.report.Report.{Report};

use std::fmt;

// Which part of the controller refuses.
#[derive(Clone, Copy, PartialEq, Eq, Debug)]
pub enum Layer {
    File,
    Section,
    Record,
    Word,
    Ticket,
    Book,
    Label,
}

impl fmt::Display for Layer {
    ghost output = { λ l. Some (layer_text l) };

    fn fmt<W: fmt::Write>(&self, f: &mut fmt::Formatter<W>) -> fmt::Result {
        f.write_str(match self {
            Layer::File => "file",
            Layer::Section => "section",
            Layer::Record => "record",
            Layer::Word => "word",
            Layer::Ticket => "ticket",
            Layer::Book => "book",
            Layer::Label => "label",
        })
    }
}

// A fault as it is passed up: its number, its place and its layer. Whoever makes one may give any
// number.
#[derive(Clone, Copy, PartialEq, Eq, Debug)]
pub struct Report {
    pub number: u8,
    pub place: usize,
    pub layer: Layer,
}

impl Report {
    // A report of a number, a place and a layer.
    pub fn new(number: u8, place: usize, layer: Layer) -> Report
        ensures { result ≡ report number place layer }
    {
        Report {
            number,
            place,
            layer,
        }
    }
}

// A report is printed as its number and its place.
impl fmt::Display for Report {
    ghost output = { λ r. Some (report_text r) };

    fn fmt<W: fmt::Write>(&self, f: &mut fmt::Formatter<W>) -> fmt::Result {
        write!(f, "{} {}", self.number, self.place)
    }
}

// A fault of one layer, which can be reported. Code over any fault knows what is told by the ghost
// member; `From` would tell it nothing.
pub trait Fault {
    ghost told: { Self → Report };

    // Its number, its place and its layer.
    fn report(&self) -> Report
        ensures { result ≡ told self.now };
}
