ghost use Rattle.std.specs.Prelude.{◌≡◌, ◌+◌, ◌≤◌, map, length};
ghost use Rattle.network.specs.Tables.{laid};
ghost use Rattle.cabinet.specs.Switches.{span_of, label_of, switch};

use slip::setting::{Port, Setting};

// Where a port has no span: the path begins or ends there.
pub const NO_SPAN: u16 = 65535;

// What one node's cabinet is told, in plain numbers: at this node, join the input on that span and label to
// the output.
#[repr(C)]
#[derive(Clone, Copy, PartialEq, Eq, Debug)]
pub struct Switch {
    pub node: u8,
    pub input_span: u16,
    pub output_span: u16,
    pub input_label: u32,
    pub output_label: u32,
}

// A port's span.
fn span_of(port: Option<Port>) -> u16
    ensures { result ≡ span_of port }
{
    match port {
        Some(port) => port.span,
        None => NO_SPAN,
    }
}

// A port's label, 0 where there is no port.
fn label_of(port: Option<Port>) -> u32
    ensures { result ≡ label_of port }
{
    match port {
        Some(port) => port.label.bits,
        None => 0,
    }
}

impl Switch {
    // A setting in plain numbers.
    fn of(setting: Setting) -> Switch
        ensures { result ≡ switch setting }
    {
        Switch {
            node: setting.node,
            input_span: span_of(setting.input),
            output_span: span_of(setting.output),
            input_label: label_of(setting.input),
            output_label: label_of(setting.output),
        }
    }
}

// Writes settings in plain numbers.
fn write_all(settings: &[Setting], switches: &mut [Switch])
    requires { length settings.now ≡ length switches.old }
    ensures { switches.new ≡ map switch settings.now }
{
    for (i, setting) in settings.iter().enumerate() {
        switches[i] = Switch::of(*setting);
    }
}

// Writes them from a place on.
pub(crate) fn write_from(settings: &[Setting], place: usize, switches: &mut [Switch])
    requires { place + length settings.now ≤ length switches.old }
    ensures { switches.new ≡ laid place (map switch settings.now) switches.old }
{
    let end = place + settings.len();
    write_all(settings, &mut switches[place..end]);
}
