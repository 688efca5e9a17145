// What holds of the names of binders: functions that do nothing, each contract a law.

ghost use Rattle.std.specs.Prelude.{◌≡◌, ◌+◌, ◌*◌, ◌<◌, ◌^◌, ℕ, List, length, suc, false};
ghost use Rattle.lp_model.specs.Shown.{Entry, has_name, binder_name, binder_number};

/// The name that is shown for a binder is that of no constant in sight. Of n + 1 names in a row one is free where there are n constants; the numbers
/// in the names are those that fit 64 bits.
pub fn binders_name_no_constant()
    ensures { (es : List Entry) → (d : ℕ) → suc d * suc (length es) < 2 ^ 64 → has_name (binder_name es d) es ≡ false }
{}

/// Binders below one another have different numbers: the inner one has the greater.
pub fn binders_differ()
    ensures { (es : List Entry) → (d e : ℕ) → d < e → binder_number es d < binder_number es e }
{}
