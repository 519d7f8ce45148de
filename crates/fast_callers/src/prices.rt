//! An example: the last price of a symbol.

ghost use Rattle.std.specs.Prelude.{◌≡◌, ◌↔◌, Err, IfOk, IfErr};
ghost use Rattle.fast_template.specs.meaning.Flat.{tree_of};
ghost use Rattle.fast_decoder.specs.meaning.Decoding.{AreBadLimits};
ghost use Rattle.fast_callers.specs.meaning.Callers.{HasLastPrice, HasLongValue, IsRefused};

use crate::counting::Refusal;
use fast_decoder::{Decoder, Event, MakeError, Sink, Stop};
use fast_template::Templates;
use fast_value::{Limits, Scalar};
use std::alloc::Global;

/// A price: the mantissa times ten to the exponent.
#[derive(Clone, Copy, Debug, PartialEq, Eq)]
pub struct Price {
    /// The exponent.
    pub exponent: i32,
    /// The mantissa.
    pub mantissa: i64,
}

/// The nodes of a template set that hold symbols and prices.
#[derive(Clone, Copy, Debug, PartialEq, Eq)]
pub struct Columns {
    /// The node of the symbol, an ASCII field.
    pub symbol: u32,
    /// The node of the price, a decimal field.
    pub price: u32,
}

/// A sink that keeps the last price of a symbol.
#[derive(Drop)]
struct LastPrice<'a> {
    columns: Columns,
    symbol: &'a [u8],
    /// True if the last symbol was the one of interest.
    is_ours: bool,
    price: Option<Price>,
}

impl Sink for LastPrice<'_> {
    ghost use Rattle.fast_callers.specs.meaning.Callers.{TakesPrice};

    ghost takes = { TakesPrice };

    ghost stops = { λ _ _ _. ⊥ };

    fn take(&mut self, event: Event<'_>) -> Result<(), Stop> {
        if let Event::Field { node, value } = event {
            match value {
                Scalar::Ascii(text) if node == self.columns.symbol => self.is_ours = text
                    == self.symbol,
                Scalar::Dec { exponent, mantissa } if node == self.columns.price && self.is_ours =>
                    self.price = Some(Price { exponent, mantissa }),
                _ => {}
            }
        }
        Ok(())
    }
}

/// Returns the last price of a symbol in a stream, if there is one. A price belongs to the last symbol before it.
///
/// # Errors
///
/// `Make` if no decoder was made; else `Stream` with the first fault of the stream, or with `L4` if it has 2^64 bytes or more.
pub fn last_price(
    alloc: Global,
    templates: &Templates,
    limits: Limits,
    columns: Columns,
    symbol: &[u8],
    stream: &[u8],
) -> Result<Option<Price>, Refusal>
    ensures found { IfOk result (HasLastPrice (tree_of templates.now) limits columns symbol.now stream.now) }
    ensures refused { IfErr result (IsRefused (tree_of templates.now) limits stream.now) }
    ensures bad_limits { (result ≡ Err (Refusal.Make MakeError.BadLimits)) ↔ (AreBadLimits limits) }
    ensures long_value { (result ≡ Err (Refusal.Make MakeError.InitialTooLong)) ↔ (HasLongValue templates.now limits) }
{
    let mut decoder = Decoder::new(alloc, templates, limits)?;
    let mut sink = LastPrice {
        columns,
        symbol,
        is_ours: false,
        price: None,
    };
    decoder.feed(stream, &mut sink)?;
    Ok(sink.price)
}
