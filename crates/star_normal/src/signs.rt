// What the signs behind an expression (loops, options and marks) add to the top node of its normal form.

ghost use Rattle.std.specs.Prelude.{◌≡◌, ◌<◌};
ghost use Rattle.star_normal.specs.Signs.{no_signs, kept, merged, looped_signs, emptied_signs, opted_signs, marked_signs};

/// A loop, the empty word, marks of words that are not empty, and marks of the empty word. Bit i of a mask stands for output i.
#[derive(Clone, Copy, Debug, PartialEq, Eq)]
pub struct Signs {
    pub loops: bool,
    pub eps: bool,
    pub marks: u16,
    pub eps_marks: u16,
}

impl Signs {
    /// No sign.
    pub fn none() -> Signs
        ensures { result ≡ no_signs }
    {
        Signs {
            loops: false,
            eps: false,
            marks: 0,
            eps_marks: 0,
        }
    }

    /// What is left of the signs below a loop or not: below a loop the marks alone.
    pub fn kept(self, under: bool) -> Signs
        ensures { result ≡ kept under self }
    {
        if under {
            Signs {
                loops: false,
                eps: false,
                ..self
            }
        } else {
            self
        }
    }

    /// These signs and further ones behind them.
    pub fn merged(self, outer: Signs) -> Signs
        ensures { result ≡ merged self outer }
    {
        Signs {
            loops: self.loops || outer.loops,
            eps: self.eps || outer.eps,
            marks: self.marks | outer.marks,
            eps_marks: self.eps_marks | outer.eps_marks,
        }
    }

    /// A loop besides, which spells the empty word or not.
    pub fn looped(self, eps: bool) -> Signs
        ensures { result ≡ looped_signs eps self }
    {
        Signs {
            loops: true,
            eps,
            ..self
        }
    }

    /// The empty word besides.
    pub fn emptied(self) -> Signs
        ensures { result ≡ emptied_signs self }
    {
        Signs { eps: true, ..self }
    }

    /// The empty word besides, but for a part below a loop.
    pub fn opted(self, under: bool) -> Signs
        ensures { result ≡ opted_signs under self }
    {
        if under { self } else { self.emptied() }
    }

    /// A mark besides, also of the empty word where the expression spells it.
    pub fn marked(self, output: u8, eps: bool) -> Signs
        requires { output < 16 }
        ensures { result ≡ marked_signs output eps self }
    {
        let bit = 1 << output;
        let eps_marks = if eps {
            self.eps_marks | bit
        } else {
            self.eps_marks
        };
        Signs {
            marks: self.marks | bit,
            eps_marks,
            ..self
        }
    }
}
