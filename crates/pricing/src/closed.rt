ghost use Rattle.std.specs.Prelude.{◌≡◌, ◌<◌, length, slice_set, slice_index_or};
ghost use Rattle.records.specs.declared.state.SpanState.TheVariants.{Open};
ghost use Rattle.pricing.specs.Pricing.{with_shut};

use records::state::SpanState;

// The states of the spans, with one span shut for as long as this lives; at its end that span is as
// it was before.
pub(crate) struct Closed<'s> {
    pub(crate) spans: &'s mut [SpanState],
    pub(crate) span: usize,
    pub(crate) former: SpanState,
}

impl<'s> Closed<'s> {
    // Shuts a span, and keeps how it was.
    pub(crate) fn shut(spans: &'s mut [SpanState], span: usize) -> Closed<'s>
        requires { span < length spans.old }
        ensures spans { result.spans.now ≡ with_shut span spans.old }
        ensures name { result.spans.ghost_name ≡ spans.entry.ghost_name }
        ensures span { result.span ≡ span }
        ensures former { result.former ≡ slice_index_or spans.old span Open }
    {
        let former = spans[span];
        spans[span] = SpanState::Shut;
        Closed {
            spans,
            span,
            former,
        }
    }
}

impl Drop for Closed<'_> {
    fn drop(self)
        requires { self.span < length self.spans.now }
        ensures { self.exit.0.now ≡ slice_set self.entry.spans.now self.entry.span self.entry.former }
    {
        self.spans[self.span] = self.former;
        let Closed {
            spans: _,
            span: _,
            former: _,
        } = self;
    }
}
