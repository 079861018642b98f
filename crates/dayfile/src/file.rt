ghost use Rattle.std.specs.Prelude.{◌≡◌};
ghost use Rattle.std.specs.Coded.{Coded-set};
ghost use Rattle.dayfile.specs.Layouts.{layout_in};
ghost use Rattle.dayfile.specs.Records.{InOrder};

use crate::parts::Layout;

/// A day's file of a right structure: its bytes, its party count and its layout, which is the one that the header gives, and whose sections stand in order.
// No `impl Model`: callers copy a file, and Rattle has no `Copy` beside a model.
#[derive(Clone, Copy)]
pub struct DayFile<'a> {
    pub(crate) bytes: &'a [u8],
    pub(crate) parties: u8,
    pub(crate) layout: Layout,
    pub ghost laid: { layout ≡ layout_in bytes.now } by { Coded-set layout-code layout (layout_in bytes.now) },
    pub ghost in_order: { InOrder bytes.now parties layout },
}
