//! Values that are kept while something else is made.
ghost use Rattle.std.specs.Prelude.{◌≡◌, Ok, Err, IfOk, IfErr};

/// Returns a value together with the one that was made. If the making failed, drops the value and returns the error.
/// Because the value is passed here, the caller need not drop it, and its proof need not go through each variant of it.
///
/// # Errors
/// Returns the error of `made`.
pub fn pair_ok<A: Drop, B: Drop, E: Drop>(value: A, made: Result<B, E>) -> Result<(A, B), E>
    ensures ok { IfOk result (λ both. (both.0 ≡ value) × (made ≡ Ok both.1)) }
    ensures err { IfErr result (λ error. made ≡ Err error) }
{
    match made {
        Ok(found) => Ok((value, found)),
        Err(error) => Err(error),
    }
}
