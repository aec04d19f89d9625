// What commands leave to those behind them.

ghost use Rattle.std.specs.Prelude.{◌≡◌, IsSome};
ghost use Rattle.std.specs.Bool.{Decides};
ghost use Rattle.geom.specs.CifDrawings.{blank_state, scale_of};
ghost use Rattle.geom.specs.CifCodes.{is_defined, is_opened};
ghost use Rattle.cif_codes.specs.Scales.{ratio, IsScale};
ghost use Rattle.cif_read.specs.States.{state_of, IsReader, outer_layer};

use cif_codes::Scale;
use cif_drawing::{Drawing, DrawingBuilder};
use geom::Layer;
use std::alloc::Global;

/// The scale 1.
const PLAIN: Scale = Scale { times: 1, per: 1 };

/// The definition that is open: its number, its scale, and the layer from before it.
#[derive(Clone, Copy, Debug, PartialEq, Eq)]
pub struct Open {
    pub number: u64,
    pub scale: Scale,
    pub outer: Option<Layer>,
}

/// What the commands so far leave to those behind them. After a fault it is of no more use.
#[derive(Drop)]
pub struct Reader {
    pub builder: DrawingBuilder,
    pub opening: Option<Open>,
    pub layer: Option<Layer>,
}

impl Reader {
    /// Before all commands.
    pub fn new(alloc: Global) -> Reader
        ensures reader { IsReader result }
        ensures blank { state_of result ≡ blank_state }
    {
        Reader {
            builder: DrawingBuilder::new(alloc),
            opening: None,
            layer: None,
        }
    }

    /// A definition is open.
    pub fn is_open(&self) -> bool
        requires { IsReader self.now }
        ensures { Decides result (IsSome (state_of self.now).opening) }
    {
        self.opening.is_some()
    }

    /// The scale of the definition that is open, or 1.
    pub fn scale(&self) -> Scale
        requires { IsReader self.now }
        ensures is { IsScale result }
        ensures scale { scale_of (state_of self.now).opening ≡ ratio result }
    {
        match self.opening {
            Some(opening) => opening.scale,
            None => PLAIN,
        }
    }

    /// The layer from before the definition that is open; the layer that is set where none is.
    pub fn outer_layer(&self) -> Option<Layer>
        ensures { result ≡ outer_layer self.now.opening self.now.layer }
    {
        match self.opening {
            Some(opening) => opening.outer,
            None => self.layer,
        }
    }

    /// A definition of the number is closed, or open.
    pub fn is_defined(&self, number: u64) -> bool
        requires { IsReader self.now }
        ensures { result ≡ is_defined (state_of self.now) number }
    {
        let closed = self.builder.is_defined(number);
        let open = self.is_opened(number);
        closed || open
    }

    /// The definition of the number is open.
    fn is_opened(&self, number: u64) -> bool
        requires { IsReader self.now }
        ensures { result ≡ is_opened (state_of self.now).opening number }
    {
        match self.opening {
            Some(opening) => opening.number == number,
            None => false,
        }
    }

    /// The drawing.
    pub fn finish(self) -> Drawing
        ensures { result ≡ (state_of self).drawing }
    {
        self.builder.finish()
    }
}
