//! Fractions, operations and refusals as text.
ghost use Rattle.std.specs.Prelude.{Some};
ghost use Rattle.frac128.specs.Text.{canonical_text, op_word, wide_text};

use crate::fractions::Frac;
use crate::operations::{Op, Wide};
use std::error::Error;
use std::fmt;

/// `p` where the denominator is 1, else `p/q`.
impl fmt::Display for Frac {
    ghost output = { λ x. Some (canonical_text x) };

    fn fmt<W: fmt::Write>(&self, f: &mut fmt::Formatter<W>) -> fmt::Result {
        let (num, den) = (self.num(), self.den());
        if den == 1 {
            write!(f, "{num}")
        } else {
            write!(f, "{num}/{den}")
        }
    }
}

impl fmt::Display for Op {
    ghost output = { λ op. Some (op_word op) };

    fn fmt<W: fmt::Write>(&self, f: &mut fmt::Formatter<W>) -> fmt::Result {
        f.write_str(match self {
            Op::Add => "ADD",
            Op::Sub => "SUB",
            Op::Mul => "MUL",
            Op::Div => "DIV",
        })
    }
}

/// The operation and its operands, as in `MUL 1000 1/3`.
impl fmt::Display for Wide {
    ghost output = { λ wide. Some (wide_text wide) };

    fn fmt<W: fmt::Write>(&self, f: &mut fmt::Formatter<W>) -> fmt::Result {
        write!(f, "{} {} {}", self.op, self.left, self.right)
    }
}

impl Error for Wide {}
