ghost use Rattle.std.specs.Prelude.{◌≡◌};
ghost use Rattle.network.specs.Net.{net};
ghost use Rattle.moment.specs.Usable.{span_is_open, channel_is_free, fare_at};
ghost use Rattle.moment.specs.Charged.{fare_carried};

use super::Moment;
use network::Network;
use network::step::Step;
use records::chain::channel_at;
use records::state::SpanState;
use semilightpath::fares::Fares;

impl Moment<'_, '_, '_, '_, '_> {
    // Whether a span is open. Past the end of the table all are.
    fn span_is_open(&self, span: usize) -> bool
        ensures { result ≡ span_is_open self.now.spans.now span }
    {
        self.spans.get(span) != Some(&SpanState::Shut)
    }

    // Whether no circuit holds the channel that a step takes. Past the end of the table all are free.
    fn channel_is_free(&self, step: Step) -> bool
        ensures { result ≡ channel_is_free (net self.now.network.now).counts self.now.channels.now step }
    {
        channel_at(self.network.extent(), self.channels, step).is_none()
    }
}

impl Fares for Moment<'_, '_, '_, '_, '_> {
    ghost over = { λ m. net m.network.now };

    ghost fare = { λ m e. fare_at (net m.network.now) m.channels.now m.spans.now e };

    ghost carried = { λ m e. fare_carried (net m.network.now) m.channels.now m.spans.now e };

    fn network(&self) -> &Network<'_, '_> {
        self.network
    }

    fn fare(&self, step: Step) -> Option<u16> {
        let span = usize::from(step.span);
        if !self.span_is_open(span) || !self.channel_is_free(step) {
            return None;
        }
        self.network.tariff(span, usize::from(step.channel))
    }
}
