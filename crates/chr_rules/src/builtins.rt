//! The names that are built in.
ghost use Rattle.std.specs.Prelude.{◌≡◌, ◌||◌};
ghost use Rattle.chr_semantics.specs.Checked.{is_builtin};
ghost use Rattle.chr_semantics.specs.Meaning.{is_fail, is_ground_test, is_integer_test, is_true};

/// `true`
pub(crate) fn is_true(name: &str, arity: usize) -> bool
    ensures { result ≡ is_true name.now arity }
{
    name == "true" && arity == 0
}

/// `fail`
pub(crate) fn is_fail(name: &str, arity: usize) -> bool
    ensures { result ≡ is_fail name.now arity }
{
    name == "fail" && arity == 0
}

/// `integer(t)`
pub(crate) fn is_integer_test(name: &str, arity: usize) -> bool
    ensures { result ≡ is_integer_test name.now arity }
{
    name == "integer" && arity == 1
}

/// `ground(t)`
pub(crate) fn is_ground_test(name: &str, arity: usize) -> bool
    ensures { result ≡ is_ground_test name.now arity }
{
    name == "ground" && arity == 1
}

/// One of the tests that are names: `true`, `integer(t)`, `ground(t)`.
pub(crate) fn is_test(name: &str, arity: usize) -> bool
    ensures { result
        ≡ (is_true name.now arity ||
        (is_integer_test name.now arity || is_ground_test name.now arity)) }
{
    is_true(name, arity) || (is_integer_test(name, arity) || is_ground_test(name, arity))
}

/// One of these.
pub(crate) fn is_builtin(name: &str, arity: usize) -> bool
    ensures { result ≡ is_builtin name.now arity }
{
    is_true(name, arity)
        || (is_fail(name, arity) || (is_integer_test(name, arity) || is_ground_test(name, arity)))
}
