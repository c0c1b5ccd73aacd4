// One instance of a clause: its forms under values of the clause's variables.
ghost use Rattle.std.specs.Prelude.{◌≡◌, IfSome, MatchOption, [], ◌∷◌, ◌+◌, ◌*◌, ◌≤◌, ◌<◌, get_or, length, take};
ghost use Rattle.theory.specs.Instances.{kept};
ghost use Rattle.stream.specs.Literals.{prop_clause_of};
ghost use Rattle.forms.specs.LinearForms.{AllSafe, Safe, code_at, form_at, form_instance, is_true_at};

use indices::Element;
use syntax::limits::Problem;

// The number of literals of the instance at these values, whose codes are written from the start on; none where the instance is dropped.
pub fn instance_at(forms: &[u32], count: usize, values: &[u8], codes: &mut [u32]) -> Option<usize>
    requires all_safe { AllSafe count forms.now × ((count * 10 ≤ length forms.now) × (length values.now ≡ 10)) }
    requires count_in_bounds { count ≤ length codes.old }
    ensures count { IfSome result (λ n. n ≤ count) }
    ensures instance { MatchOption result (kept (form_instance values.now count forms.now) ≡ []) (λ n. kept (form_instance values.now count forms.now) ≡ prop_clause_of (take n codes.new) ∷ []) }
{
    let mut written: usize = 0;
    for i in 0..count {
        let at = i * Problem::FORM;
        if forms[at] == 0 {
            codes[written] = code_at(forms, at, values);
            written += 1;
        } else if is_true_at(forms, at, values) {
            return None;
        }
    }
    Some(written)
}

// Whether the equality at `at` is true.
fn is_true_at(forms: &[u32], at: usize, values: &[u8]) -> bool
    requires at_in_bounds { (at + 10 ≤ length forms.now) × (length values.now ≡ 10) }
    requires at_bound { (get_or forms.now (at + 2) 0 < 10) × (get_or forms.now (at + 4) 0 < 10) }
    ensures { result ≡ is_true_at (form_at forms.now at) values.now }
{
    let x = values[forms[at + 2] as usize];
    let y = values[forms[at + 4] as usize];
    if forms[at] == 1 {
        return x == y;
    }
    x != y
}

// The code of the literal at `at`.
fn code_at(forms: &[u32], at: usize, values: &[u8]) -> u32
    requires { Safe (form_at forms.now at) × ((at + 10 ≤ length forms.now) × (length values.now ≡ 10)) }
    ensures { result ≡ code_at (form_at forms.now at) values.now }
{
    let x = product_at(forms, at + 2, values);
    let y = product_at(forms, at + 4, values);
    let z = product_at(forms, at + 6, values);
    let w = product_at(forms, at + 8, values);
    forms[at + 1] + (x + (y + (z + w)))
}

// The value at the place that stands at `at`, as often as the coefficient after it says.
fn product_at(forms: &[u32], at: usize, values: &[u8]) -> u32
    requires at_in_bounds { (at + 2 ≤ length forms.now) × (length values.now ≡ 10) }
    requires at_bound { (get_or forms.now at 0 < 10) × (get_or forms.now (at + 1) 0 ≤ 8192) }
    ensures product { result ≡ get_or forms.now (at + 1) 0 * get_or values.now (get_or forms.now at 0) 0 }
    ensures small { result ≤ 2097152 }
{
    let place = forms[at] as usize;
    product(forms[at + 1], Element(values[place]))
}

// A value, as often as a coefficient says.
fn product(coefficient: u32, value: Element) -> u32
    requires { coefficient ≤ 8192 }
    ensures product { result ≡ coefficient * value.0 }
    ensures small { result ≤ 2097152 }
{
    coefficient * value.0 as u32
}
