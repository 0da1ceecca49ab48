//! What holds of exact results, of what fits and of the order, as contracts without code.
//!
//! A fraction here is any value in the sense of `specs/`, in lowest terms only where a premise says so. `IsKept` holds of
//! each [`Frac`](crate::Frac); `Frac::kept` tells it of one.
ghost use Rattle.std.specs.Prelude.{◌≡◌, ◌≢◌, ◌↔◌, ◌⊎◌, ℕ, ◌<◌, ℤ, pos, ◌*ℤ◌, ◌<ℤ◌, unsigned_abs};
ghost use Rattle.std.specs.Int.{IsGcd};
ghost use Rattle.std.specs.declared.cmp.Ordering.TheVariants.{Equal, Greater, Less};
ghost use Rattle.frac128.specs.Fits.{FitsDifference, FitsProduct, FitsQuotient, FitsSum};
ghost use Rattle.frac128.specs.Fraction.{Fraction, den, exact_difference, exact_product, exact_quotient, exact_sum, inverse, lowest, negation, one_value, zero_value};
ghost use Rattle.frac128.specs.Lowest.{IsInLowestTerms, IsKept};
ghost use Rattle.frac128.specs.Numbers.{gcd};
ghost use Rattle.frac128.specs.Order.{IsAtMost, IsBelow, order_of};

/// Sums commute and associate.
pub fn sums_in_any_order()
    ensures commute { (x y : Fraction) → exact_sum x y ≡ exact_sum y x }
    ensures associate { (x y z : Fraction) → exact_sum (exact_sum x y) z ≡ exact_sum x (exact_sum y z) }
    ensures fit { (x y : Fraction) → FitsSum x y ↔ FitsSum y x }
{}

/// Products commute and associate.
pub fn products_in_any_order()
    ensures commute { (x y : Fraction) → exact_product x y ≡ exact_product y x }
    ensures associate { (x y z : Fraction) → exact_product (exact_product x y) z
        ≡ exact_product x (exact_product y z) }
    ensures fit { (x y : Fraction) → FitsProduct x y ↔ FitsProduct y x }
{}

/// Products distribute over sums.
pub fn products_over_sums()
    ensures left { (x y z : Fraction) → exact_product (exact_sum x y) z
        ≡ exact_sum (exact_product x z) (exact_product y z) }
    ensures right { (x y z : Fraction) → exact_product x (exact_sum y z)
        ≡ exact_sum (exact_product x y) (exact_product x z) }
{}

/// What is added to its negation gives 0, and a sign moves through sums and products.
pub fn negations()
    ensures twice { (x : Fraction) → negation (negation x) ≡ x }
    ensures cancel { (x : Fraction) → exact_sum x (negation x) ≡ zero_value }
    ensures of_sum { (x y : Fraction) → negation (exact_sum x y) ≡ exact_sum (negation x) (negation y) }
    ensures of_product { (x y : Fraction) → negation (exact_product x y) ≡ exact_product (negation x) y }
    ensures taken_and_given { (x y : Fraction) → IsKept x → exact_sum (exact_difference x y) y ≡ x }
{}

/// What is multiplied by its inverse gives 1.
pub fn inverses()
    ensures cancel { (x : Fraction) → x.num ≢ pos 0 → exact_product x (inverse x) ≡ one_value }
    ensures divided_and_multiplied { (x y : Fraction) → IsKept x → y.num ≢ pos 0 → exact_product (exact_quotient x y) y ≡ x }
{}

/// What 0 and 1 do, and that an operation with 0 and a product with 1 always fit.
pub fn zero_and_one()
    ensures sum { (x : Fraction) → IsKept x → exact_sum x zero_value ≡ x }
    ensures sum_left { (x : Fraction) → IsKept x → exact_sum zero_value x ≡ x }
    ensures difference { (x : Fraction) → IsKept x → exact_difference x zero_value ≡ x }
    ensures product_zero { (x : Fraction) → exact_product x zero_value ≡ zero_value }
    ensures product_one { (x : Fraction) → IsKept x → exact_product x one_value ≡ x }
    ensures product_one_left { (x : Fraction) → IsKept x → exact_product one_value x ≡ x }
    ensures quotient_zero { (x : Fraction) → exact_quotient zero_value x ≡ zero_value }
    ensures quotient_one { (x : Fraction) → IsKept x → exact_quotient x one_value ≡ x }

    ensures sum_fits { (x : Fraction) → IsKept x → FitsSum x zero_value × FitsSum zero_value x }
    ensures difference_fits { (x : Fraction) → IsKept x → FitsDifference x zero_value × FitsDifference zero_value x }
    ensures product_zero_fits { (x : Fraction) → FitsProduct x zero_value × FitsProduct zero_value x }
    ensures product_one_fits { (x : Fraction) → IsKept x → FitsProduct x one_value × FitsProduct one_value x }
    ensures quotient_zero_fits { (x : Fraction) → FitsQuotient zero_value x }
    ensures quotient_one_fits { (x : Fraction) → IsKept x → FitsQuotient x one_value }
{}

/// What operations make of kept values is kept, where it fits.
pub fn results_are_kept()
    ensures zero { IsKept zero_value }
    ensures one { IsKept one_value }
    ensures negation { (x : Fraction) → IsKept x → IsKept (negation x) }
    ensures inverse { (x : Fraction) → x.num ≢ pos 0 → IsKept x → IsKept (inverse x) }
    ensures sum { (x y : Fraction) → IsKept x → IsKept y → FitsSum x y → IsKept (exact_sum x y) }
    ensures difference { (x y : Fraction) → IsKept x → IsKept y → FitsDifference x y → IsKept (exact_difference x y) }
    ensures product { (x y : Fraction) → IsKept x → IsKept y → FitsProduct x y → IsKept (exact_product x y) }
    ensures quotient { (x y : Fraction) → y.num ≢ pos 0 → IsKept x → IsKept y → FitsQuotient x y
        → IsKept (exact_quotient x y) }
{}

/// Lowest terms keep the value, and results are in them, also where they don't fit.
pub fn lowest_terms()
    ensures divisor { (a b : ℕ) → IsGcd a b (gcd a b) }
    ensures value { (n : ℤ) (d : ℕ) → 0 < d
        → (lowest n d).num *ℤ pos d ≡ n *ℤ pos (den (lowest n d)) }
    ensures nothing_in_common { (n : ℤ) (d : ℕ) → 0 < d
        → IsInLowestTerms (lowest n d) }
    ensures sum { (x y : Fraction) → IsInLowestTerms (exact_sum x y) }
    ensures product { (x y : Fraction) → IsInLowestTerms (exact_product x y) }
{}

/// The order by value is total, and equal kept values are one.
pub fn order_is_total()
    ensures itself { (x : Fraction) → IsAtMost x x }
    ensures total { (x y : Fraction) → IsAtMost x y ⊎ IsAtMost y x }
    ensures transitive { (x y z : Fraction) → IsAtMost x y → IsAtMost y z → IsAtMost x z }
    ensures antisymmetric { (x y : Fraction) → IsKept x → IsKept y → IsAtMost x y → IsAtMost y x → x ≡ y }
    ensures below { (x y : Fraction) → IsBelow x y ⊎ IsAtMost y x }
    ensures below_then_at_most { (x y z : Fraction) → IsBelow x y → IsAtMost y z → IsBelow x z }
    ensures at_most_then_below { (x y z : Fraction) → IsAtMost x y → IsBelow y z → IsBelow x z }
    ensures below_not { (x y : Fraction) → IsBelow x y → IsAtMost y x → ⊥ }
    ensures below_at_most { (x y : Fraction) → IsBelow x y → IsAtMost x y }
{}

/// What each answer of `Frac::cmp` says.
pub fn answers_of_cmp()
    ensures less { (x y : Fraction) → (order_of x y ≡ Less) ↔ IsBelow x y }
    ensures equal { (x y : Fraction) → IsKept x → IsKept y → (order_of x y ≡ Equal) ↔ (x ≡ y) }
    ensures greater { (x y : Fraction) → (order_of x y ≡ Greater) ↔ IsBelow y x }
{}

/// A value's sign is that of its numerator.
pub fn signs()
    ensures above_zero { (x : Fraction) → IsBelow zero_value x ↔ (pos 0 <ℤ x.num) }
    ensures below_zero { (x : Fraction) → IsBelow x zero_value ↔ (x.num <ℤ pos 0) }
{}

/// Sums keep the order, and negations turn it.
pub fn order_of_sums()
    ensures at_most { (x y z : Fraction) → IsAtMost x y → IsAtMost (exact_sum x z) (exact_sum y z) }
    ensures below { (x y z : Fraction) → IsBelow x y → IsBelow (exact_sum x z) (exact_sum y z) }
    ensures both { (x y z w : Fraction) → IsAtMost x y → IsAtMost z w
        → IsAtMost (exact_sum x z) (exact_sum y w) }
    ensures difference { (x y : Fraction) → IsAtMost x y → IsAtMost zero_value (exact_difference y x) }
    ensures from_difference { (x y : Fraction) → IsKept x → IsKept y → IsAtMost zero_value (exact_difference y x)
        → IsAtMost x y }
    ensures at_most_turned { (x y : Fraction) → IsAtMost x y → IsAtMost (negation y) (negation x) }
    ensures below_turned { (x y : Fraction) → IsBelow x y → IsBelow (negation y) (negation x) }
{}

/// Products by a value above 0 keep the order, and by one below 0 turn it.
pub fn order_of_products()
    ensures at_most { (x y z : Fraction) → IsAtMost zero_value z → IsAtMost x y
        → IsAtMost (exact_product x z) (exact_product y z) }
    ensures below { (x y z : Fraction) → IsBelow zero_value z → IsBelow x y
        → IsBelow (exact_product x z) (exact_product y z) }
    ensures at_most_turned { (x y z : Fraction) → IsAtMost z zero_value → IsAtMost x y
        → IsAtMost (exact_product y z) (exact_product x z) }
    ensures below_turned { (x y z : Fraction) → IsBelow z zero_value → IsBelow x y
        → IsBelow (exact_product y z) (exact_product x z) }
{}
