ghost use Rattle.std.specs.Prelude.{◌≡◌};
ghost use Rattle.fault.specs.Reports.{of_record, of_section, of_file, of_load};
ghost use Rattle.fault.specs.declared.plan.FileFault.TheVariants as file;
ghost use Rattle.fault.specs.declared.plan.LoadFault.TheVariants as load;
ghost use Rattle.fault.specs.declared.plan.SectionFault.TheVariants as section;

use super::book::BookFault;
use super::report::{Fault, Layer, Report};

// A record of the plan that is not sound, by the place of its first byte.
#[derive(Clone, Copy, PartialEq, Eq, Debug)]
pub enum RecordFault {
    Channel { at: usize },
    Span { at: usize },
    Converter { at: usize },
}

// A section of the plan that is not sound, by the place of its pair of offset and length.
#[derive(Clone, Copy, PartialEq, Eq, Debug)]
pub enum SectionFault {
    Early { at: usize },
    Length { at: usize },
    Beyond { at: usize },
    Record(RecordFault),
}

// A plan that is not sound.
#[derive(Clone, Copy, PartialEq, Eq, Debug)]
pub enum FileFault {
    Size,
    Version,
    Value { at: usize },
    Section(SectionFault),
}

// A plan that is not loaded: it is not sound, or a table is too short for it.
#[derive(Clone, Copy, PartialEq, Eq, Debug)]
pub enum LoadFault {
    File(FileFault),
    Book(BookFault),
}

// Each fault turns into the next by hand: a `From` that `thiserror` derives has no contract.
impl From<RecordFault> for SectionFault {
    ghost from_gives = { λ x y. y ≡ section.Record x };

    fn from(value: RecordFault) -> SectionFault {
        SectionFault::Record(value)
    }
}

impl From<SectionFault> for FileFault {
    ghost from_gives = { λ x y. y ≡ file.Section x };

    fn from(value: SectionFault) -> FileFault {
        FileFault::Section(value)
    }
}

impl From<FileFault> for LoadFault {
    ghost from_gives = { λ x y. y ≡ load.File x };

    fn from(value: FileFault) -> LoadFault {
        LoadFault::File(value)
    }
}

impl From<BookFault> for LoadFault {
    ghost from_gives = { λ x y. y ≡ load.Book x };

    fn from(value: BookFault) -> LoadFault {
        LoadFault::Book(value)
    }
}

impl Fault for RecordFault {
    ghost told = { of_record };

    fn report(&self) -> Report {
        let layer = Layer::Record;
        match *self {
            RecordFault::Channel { at } => Report::new(7, at, layer),
            RecordFault::Span { at } => Report::new(8, at, layer),
            RecordFault::Converter { at } => Report::new(9, at, layer),
        }
    }
}

impl Fault for SectionFault {
    ghost told = { of_section };

    fn report(&self) -> Report {
        let layer = Layer::Section;
        match *self {
            SectionFault::Early { at } => Report::new(4, at, layer),
            SectionFault::Length { at } => Report::new(5, at, layer),
            SectionFault::Beyond { at } => Report::new(6, at, layer),
            SectionFault::Record(fault) => fault.report(),
        }
    }
}

impl Fault for FileFault {
    ghost told = { of_file };

    fn report(&self) -> Report {
        let layer = Layer::File;
        match *self {
            FileFault::Size => Report::new(1, 0, layer),
            FileFault::Version => Report::new(2, 0, layer),
            FileFault::Value { at } => Report::new(3, at, layer),
            FileFault::Section(fault) => fault.report(),
        }
    }
}

impl Fault for LoadFault {
    ghost told = { of_load };

    fn report(&self) -> Report {
        match *self {
            LoadFault::File(fault) => fault.report(),
            LoadFault::Book(fault) => fault.report(),
        }
    }
}
