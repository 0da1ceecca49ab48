//! Operations that tell what did not fit.
use crate::fractions::Frac;

/// An operation on two fractions.
#[derive(Clone, Copy, PartialEq, Eq, Debug)]
pub enum Op {
    Add,
    Sub,
    Mul,
    Div,
}

/// An operation that doesn't fit 128 bits, with its operands in order.
#[derive(Clone, Copy, PartialEq, Eq, Debug)]
pub struct Wide {
    pub op: Op,
    pub left: Frac,
    pub right: Frac,
}

impl Frac {
    ghost use Rattle.std.specs.Prelude.{◌≡◌, ◌≢◌, pos};
    ghost use Rattle.frac128.specs.Checked.{checked_difference, checked_product, checked_quotient, checked_sum};

    /// `add`, with what did not fit.
    pub fn checked_add(&self, other: &Frac) -> Result<Frac, Wide>
        ensures { result ≡ checked_sum self.now other.now }
    {
        match self.add(other) {
            Some(sum) => Ok(sum),
            None => Err(self.refused(Op::Add, other)),
        }
    }

    /// `sub`, with what did not fit.
    pub fn checked_sub(&self, other: &Frac) -> Result<Frac, Wide>
        ensures { result ≡ checked_difference self.now other.now }
    {
        match self.sub(other) {
            Some(difference) => Ok(difference),
            None => Err(self.refused(Op::Sub, other)),
        }
    }

    /// `mul`, with what did not fit.
    pub fn checked_mul(&self, other: &Frac) -> Result<Frac, Wide>
        ensures { result ≡ checked_product self.now other.now }
    {
        match self.mul(other) {
            Some(product) => Ok(product),
            None => Err(self.refused(Op::Mul, other)),
        }
    }

    /// `div`, with what did not fit.
    pub fn checked_div(&self, other: &Frac) -> Result<Frac, Wide>
        requires { other.now.num ≢ pos 0 }
        ensures { result ≡ checked_quotient self.now other.now }
    {
        match self.div(other) {
            Some(quotient) => Ok(quotient),
            None => Err(self.refused(Op::Div, other)),
        }
    }

    fn refused(&self, op: Op, other: &Frac) -> Wide
        ensures { result ≡ record { op = op; left = self.now; right = other.now } }
    {
        Wide {
            op,
            left: *self,
            right: *other,
        }
    }
}
