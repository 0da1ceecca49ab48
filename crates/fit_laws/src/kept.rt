//! What holds of the numbers of each standard form in memory.
ghost use Rattle.dictionary.specs.Solutions.{HasReducedNumbers};
ghost use Rattle.fit_laws.specs.KeptEntries.{HasKeptForm};

use dictionary::Std;
use frac128::Frac;

/// Does nothing, and tells a proof that each number of a standard form fits and is in lowest terms. It goes over them once.
pub fn form_is_kept(s: &Std)
    ensures kept { HasKeptForm s.now }
    ensures lowest { HasReducedNumbers s.now }
{
    for row in s.rows.as_slice() {
        Frac::are_kept(row.coefs.as_slice());
        row.rhs.kept();
    }
    Frac::are_kept(s.obj.as_slice());
    s.constant.kept();
}
