//! Which pairs are left, offer by offer.
ghost use Rattle.kx_codes.specs.Left.{IsLeft, offers_of};
ghost use Rattle.kx_codes.specs.Pairs.{Pair, code_in, name_in, pairs_of};
ghost use Rattle.kx_include.specs.Expansion.{Body};
ghost use Rattle.std.specs.Prelude.{◌≡◌, ◌↔◌, Some, reverse};

/// The pairs of a name and a keycode that a keycodes body leaves are those that the rule names: the last offer is taken and
/// is the pair's own, or the pair was left before and the last offer is not taken or shares neither name nor code.
pub fn pairs_are_left()
    ensures codes { (body : Body) (pair : Pair)
        → (code_in (pairs_of body) pair.name ≡ Some pair.code)
        ↔ IsLeft (reverse (offers_of body)) pair }
    ensures names { (body : Body) (pair : Pair)
        → (name_in (pairs_of body) pair.code ≡ Some pair.name)
        ↔ IsLeft (reverse (offers_of body)) pair }
{}
