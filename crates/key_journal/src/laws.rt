// What holds of every image.
ghost use Rattle.std.specs.Prelude.{◌≡◌, ◌⊎◌, ◌+◌, ◌∷◌, ◌++◌, List, ℕ, true, false, Some, None, Ok};
ghost use Rattle.key_journal.specs.Layout.{area_size};
ghost use Rattle.key_journal.specs.Journal.{is_blank, has_magic, start, gate_place, HoldsBodies, Begins};
ghost use Rattle.key_journal.specs.Opening.{AreBytes, IsDamagedAt, IsJudged, found_at};
ghost use Rattle.key_journal.specs.States.{AreFirst};

/// An image stands for one list of bodies only.
pub fn law_one_list()
    ensures { (image : List ℕ) (first second : List (List ℕ)) → HoldsBodies image first → HoldsBodies image second → first ≡ second }
{}

/// An image that isn't blank stands for a list of bodies or has a first damage, and never both.
pub fn law_blank_sound_or_damaged()
    ensures one_of { (image : List ℕ) → AreBytes image → IsJudged image }
    ensures not_blank { (image : List ℕ) (bodies : List (List ℕ)) → is_blank image ≡ true → HoldsBodies image bodies → ⊥ }
    ensures not_damaged { (image : List ℕ) (bodies : List (List ℕ)) (place : ℕ) → HoldsBodies image bodies → IsDamagedAt image place → ⊥ }
{}

/// An image has one first damage only.
pub fn law_one_damage()
    ensures { (image : List ℕ) (first second : ℕ) → IsDamagedAt image first → IsDamagedAt image second → first ≡ second }
{}

/// What is found at the gates of an image, and what two lists of its first bodies have to do with one another.
#[tactic(auto, using(crate::proofs::GateLemmas::head_stands))]
pub fn law_gates()
    ensures head { (image : List ℕ) (bodies : List (List ℕ)) → HoldsBodies image bodies → (is_blank image ≡ false) × (has_magic image ≡ true) }
    ensures begins { (image : List ℕ) (bodies : List (List ℕ)) → HoldsBodies image bodies → Begins image bodies (gate_place image bodies) }
    ensures either { (image : List ℕ) (first second : List (List ℕ)) (g h : ℕ) → Begins image first g → Begins image second h → AreFirst first second ⊎ AreFirst second first }
    ensures front { (image : List ℕ) (bodies rest : List (List ℕ)) (last : ℕ) → Begins image (bodies ++ rest) last → Begins image bodies (gate_place image bodies) }
    ensures next { (image : List ℕ) (bodies rest : List (List ℕ)) (body : List ℕ) (gate last : ℕ) → Begins image bodies gate → Begins image (bodies ++ body ∷ rest) last
        → found_at image gate (start image + area_size) ≡ Ok (Some body) }
    ensures end { (image : List ℕ) (bodies : List (List ℕ)) (gate : ℕ) → Begins image bodies gate → HoldsBodies image bodies → found_at image gate (start image + area_size) ≡ Ok None }
{}
