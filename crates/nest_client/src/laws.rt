//! Laws of reports. Each function does nothing: its clause is a fact about the
//! definitions that the other contracts cite.
ghost use Rattle.std.specs.Prelude.{◌≡◌, ◌≤◌, ◌<◌, ◌+◌, ◌^◌, ℕ, List, length};
ghost use Rattle.report_frame.specs.declared.limits.TheConstants.{FIXED_BYTES, MIN_THRESHOLD, MAX_VALUE};
ghost use Rattle.report_frame.specs.Versions.{max_level, max_threshold, max_frame};
ghost use Rattle.report_frame.specs.Frame.{IsFrame};
ghost use Rattle.report_frame.specs.View.{head_of};
ghost use Rattle.adss_commit.specs.Derivation.{context_key, context_head};
ghost use Rattle.adss_commit.specs.declared.context.Context.{Context};
ghost use Rattle.nest_client.specs.declared.client.Client.{Client};
ghost use Rattle.nest_client.specs.declared.client.TheConstants.{LAYER_COINS};
ghost use Rattle.nest_client.specs.declared.limits.TheConstants.{LAYER_BYTES, MAX_REPORT_ONE, MAX_REPORT_TWO, MAX_REPORTS};
ghost use Rattle.nest_client.specs.Report.{layer, share, coins, point_of, frame_of, HoldsUnder};

/// The limits of what a client makes, in plain numbers.
pub fn limits()
    ensures coins { LAYER_COINS ≡ 20 }
    ensures layer { LAYER_BYTES ≡ 202 }
    ensures reports { (MAX_REPORT_ONE ≡ 1616) × (MAX_REPORT_TWO ≡ 3487) × (MAX_REPORTS ≡ 65536) }
{}

/// A report without a shift has the share of its context.
#[tactic(auto, using(crate::proofs::Layers::own_share))]
pub fn own_share()
    ensures { (c : Client) (x : Context) (plain : List ℕ) →
        (layer c 0 x plain).y0 ≡ share x (coins c x.level) 0 }
{}

/// The report of a context holds its plain body under the key of the context: its seal is that of
/// the bytes before it, and its body gives the plain body back.
#[tactic(auto, using(crate::proofs::Held::layer_holds))]
pub fn layer_holds()
    ensures { (c : Client) (shift : ℕ) (x : Context) (plain : List ℕ) →
        HoldsUnder (layer c shift x plain) (context_key x) plain }
{}

/// Its head is that of the context, and its point the one that the coins choose.
#[tactic(auto, using(crate::proofs::Held::layer_head, crate::proofs::Held::layer_point))]
pub fn layer_shows()
    ensures head { (c : Client) (shift : ℕ) (x : Context) (plain : List ℕ) →
        head_of (layer c shift x plain) ≡ context_head x }
    ensures point { (c : Client) (shift : ℕ) (x : Context) (plain : List ℕ) →
        (layer c shift x plain).x ≡ point_of (coins c x.level) }
{}

/// A report of a context in range has a frame.
#[tactic(auto, using(crate::proofs::Held::layer_is_frame))]
pub fn layer_is_frame()
    ensures { (c : Client) (shift : ℕ) (x : Context) (plain : List ℕ) →
        x.level ≤ max_level x.version → x.epoch < 2 ^ 32 → MIN_THRESHOLD ≤ x.k →
        x.k ≤ max_threshold x.version →
        1 ≤ length x.value → length x.value ≤ MAX_VALUE → 1 ≤ length plain →
        FIXED_BYTES + length x.value + length plain ≤ max_frame x.version →
        IsFrame (layer c shift x plain) (frame_of (layer c shift x plain)) }
{}
