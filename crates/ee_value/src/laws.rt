//! Laws of the definitions. A body here does nothing; the clauses state the laws.

ghost use Rattle.std.specs.Prelude.{◌≡◌, ◌≢◌, ◌↔◌, ℕ, ◌+◌, ◌-◌, ◌*◌, ◌/◌, ◌%◌, ◌^◌, ◌<◌, ◌≤◌, max, true, false, map, [], ◌∷◌, Some, None};
ghost use Rattle.std.specs.List.{range_with_len};
ghost use Rattle.ee_roots.specs.Roots.{IsLow, IsHigh};
ghost use Rattle.ee_value.specs.declared.rates.Rates.{Rates};
ghost use Rattle.ee_value.specs.Rounding.{Rounds, grown};
ghost use Rattle.ee_value.specs.Chain.{InRange, one_rate, rates_with, named_extension, rate_in, start, highest_start, highest_unit};
ghost use Rattle.ee_value.specs.Value.{accrued, redemption};
ghost use Rattle.ee_value.specs.Open.{low_root, high_root, is_exact, is_open, first_open, NeverOpen, IsFirstOpen};
ghost use Rattle.ee_units.specs.Limits.{highest_rate, unit_price, unit_face};

/// Rounding: exactly one number of cents satisfies `Rounds`, `grown` returns it, and an exact half cent
/// rounds up.
pub const fn rounding_law()
    ensures fits { (u r m : ℕ) → 1 ≤ u → m ≤ 6 → r ≤ highest_rate → Rounds u r m (grown u r m) }
    ensures unique { (u r m c d : ℕ) → Rounds u r m c → Rounds u r m d → c ≡ d }
    ensures half_up { (u r m c : ℕ) → 1 ≤ c → (2 * u) ^ 6 * (20000 + r) ^ m ≡ (2 * c - 1) ^ 6 * 20000 ^ m
        → Rounds u r m c }
    ensures half_year_of_2_percent { Rounds 1250 200 6 1263 }
    ensures quarter_of_4_02_percent { Rounds 1250 402 3 1263 }
{}

/// Terms are a fixed rate and, if it differs, an extension. The named extension gives the terms again, and
/// an extension equal to the fixed rate isn't named.
pub const fn rates_law()
    ensures back { (rates : Rates) → rates_with rates.fixed (named_extension rates) ≡ rates }
    ensures named { (r e : ℕ) → e ≢ r → named_extension (rates_with r (Some e)) ≡ Some e }
    ensures same { (r : ℕ) → named_extension (rates_with r (Some r)) ≡ None }
    ensures unnamed { (r : ℕ) → named_extension (rates_with r None) ≡ None }
{}

/// The chain of half-years: it begins at the unit's price. Each start is the one before, grown for six
/// months and rounded, and the start at 20 years is at least twice the price.
pub const fn chain_law()
    ensures original { (rates : Rates) (k : ℕ) → k < 40 → rate_in rates k ≡ rates.fixed }
    ensures extended { (rates : Rates) (k : ℕ) → 40 ≤ k → rate_in rates k ≡ rates.extension }
    ensures first { (rates : Rates) → start rates 0 ≡ unit_price }
    ensures next { (rates : Rates) (k : ℕ) → InRange rates → k + 1 ≢ 40
        → Rounds (start rates k) (rate_in rates k) 6 (start rates (k + 1)) }
    ensures doubled { (rates : Rates) (c : ℕ) → InRange rates → Rounds (start rates 39) (rate_in rates 39) 6 c
        → start rates 40 ≡ max c unit_face }
    ensures range { (rates : Rates) (k : ℕ) → InRange rates → k ≤ 60
        → (unit_price ≤ start rates k) × (start rates k ≤ highest_start) }
{}

/// Accrued values: the value at an age is the start of its half-year, grown for the months since and
/// rounded. It stops after 30 years, is never below the price, and never falls. Redemption before five
/// years takes off three months.
pub const fn value_law()
    ensures accrued { (rates : Rates) (a : ℕ) → InRange rates → a ≤ 360
        → Rounds (start rates (a / 6)) (rate_in rates (a / 6)) (a % 6) (accrued rates a) }
    ensures stops { (rates : Rates) (a : ℕ) → 360 ≤ a → accrued rates a ≡ accrued rates 360 }
    ensures half_years { (rates : Rates) (k : ℕ) → InRange rates → k ≤ 60 → accrued rates (6 * k) ≡ start rates k }
    ensures never_falls { (rates : Rates) (a j : ℕ) → accrued rates a ≤ accrued rates (a + j) }
    ensures range { (rates : Rates) (a : ℕ) → InRange rates
        → (unit_price ≤ accrued rates a) × (accrued rates a ≤ highest_unit) }
    ensures penalty { (rates : Rates) (a : ℕ) → 12 ≤ a → a < 60 → redemption rates a ≡ accrued rates (a - 3) }
    ensures no_penalty { (rates : Rates) (a : ℕ) → 60 ≤ a → redemption rates a ≡ accrued rates a }
{}

/// Parts of the chains of four rates and two pairs: the half cents of 3.60 % and 20.00 % round up. At 20
/// years 3.40 % is raised to 2500, while 3.60 % has more, whatever the extension.
pub const fn examples_law()
    ensures begins_3_50 { map (start (one_rate 350)) (range_with_len 0 11)
        ≡ 1250 ∷ 1272 ∷ 1294 ∷ 1317 ∷ 1340 ∷ 1363 ∷ 1387 ∷ 1411 ∷ 1436 ∷ 1461 ∷ 1487 ∷ [] }
    ensures doubles_3_50 { map (start (one_rate 350)) (range_with_len 36 5) ≡ 2332 ∷ 2373 ∷ 2415 ∷ 2457 ∷ 2500 ∷ [] }
    ensures doubles_3_40 { map (start (one_rate 340)) (range_with_len 36 5) ≡ 2292 ∷ 2331 ∷ 2371 ∷ 2411 ∷ 2500 ∷ [] }
    ensures begins_3_60 { map (start (one_rate 360)) (range_with_len 0 4) ≡ 1250 ∷ 1273 ∷ 1296 ∷ 1319 ∷ [] }
    ensures doubles_3_60 { map (start (one_rate 360)) (range_with_len 36 5) ≡ 2376 ∷ 2419 ∷ 2463 ∷ 2507 ∷ 2552 ∷ [] }
    ensures begins_20 { map (start (one_rate 2000)) (range_with_len 0 9)
        ≡ 1250 ∷ 1375 ∷ 1513 ∷ 1664 ∷ 1830 ∷ 2013 ∷ 2214 ∷ 2435 ∷ 2679 ∷ [] }
    ensures ends_20 { map (start (one_rate 2000)) (range_with_len 56 5)
        ≡ 259966 ∷ 285963 ∷ 314559 ∷ 346015 ∷ 380617 ∷ [] }
    ensures extends_3_40_by_4 { map (start (rates_with 340 (Some 400))) (range_with_len 38 6)
        ≡ 2371 ∷ 2411 ∷ 2500 ∷ 2550 ∷ 2601 ∷ 2653 ∷ [] }
    ensures extends_3_60_by_0 { map (start (rates_with 360 (Some 0))) (range_with_len 39 4)
        ≡ 2507 ∷ 2552 ∷ 2552 ∷ 2552 ∷ [] }
{}

/// Rates whose growth over three months is a fraction: up to 20 % these are 0.00, 4.02, 8.08, 12.18 and
/// 16.32 %.
pub const fn exact_law()
    ensures exact { (is_exact 0 ≡ true) × (is_exact 402 ≡ true) × (is_exact 808 ≡ true) × (is_exact 1218 ≡ true)
        × (is_exact 1632 ≡ true) }
    ensures inexact { (r : ℕ) → r ≤ highest_rate → r ≢ 0 → r ≢ 402 → r ≢ 808 → r ≢ 1218 → r ≢ 1632 → is_exact r ≡ false }
{}

/// Open ages: what the bounds are, which ages are never open, and what `first_open` returns.
pub const fn open_law()
    ensures low { (b r p : ℕ) → 8 ≤ b → r ≤ highest_rate → IsLow b r p → low_root b r ≡ p }
    ensures high { (b r p : ℕ) → 8 ≤ b → r ≤ highest_rate → IsHigh b r p → high_root b r ≡ p }
    ensures whole_half_year { (rates : Rates) (a b : ℕ) → a % 6 ≡ 0 → is_open rates a b ≡ false }
    ensures no_interest { (rates : Rates) (a b : ℕ) → rate_in rates (a / 6) ≡ 0 → is_open rates a b ≡ false }
    ensures exact_quarter { (rates : Rates) (a b : ℕ) → a % 6 ≡ 3 → is_exact (rate_in rates (a / 6)) ≡ true
        → is_open rates a b ≡ false }
    ensures matured { (rates : Rates) (a b : ℕ) → 360 ≤ a → is_open rates a b ≡ false }
    ensures never { (rates : Rates) (b : ℕ) → NeverOpen rates b ↔ (first_open rates b ≡ None) }
    ensures first { (rates : Rates) (b a : ℕ) → IsFirstOpen rates b a ↔ (first_open rates b ≡ Some a) }
{}
