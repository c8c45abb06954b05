// That a data key goes over from one bank to another, told by a call that does nothing.
ghost use Rattle.std.specs.Prelude.{◌≡◌, ◌<◌, ◌^◌, ℕ, false, Some};
ghost use Rattle.x_mac.specs.declared.pair.Pair.{Pair as ThePair};
ghost use Rattle.x_gen.specs.declared.generator.Gen.{Gen as TheGen};
ghost use Rattle.x_gen.specs.Parity.{odd_parity_of, is_weak_key};
ghost use Rattle.x_gen.specs.Gen.{good_draw};
ghost use Rattle.change_code.specs.declared.space.Space.{Space as TheSpace};
ghost use Rattle.world_laws.specs.Exchanged.{DrawsMoment, HasRoom, KeyExchanged, banks_with, receiver_name, sender_name};

/// A generator under a weak key with the seed 0 draws the moment itself, with odd parity, where that is no weak key. And where
/// two banks share a key-encrypting key that was just loaded, the first one's generator draws a key at the moment, and both
/// have room for 10,000 bytes, three events in turn make a key live: the command that starts it, the arrival of
/// its text, and the arrival of the answer's text.
pub fn law_exchanged()
    ensures draws { (moment : ℕ) → moment < 2 ^ 64 → is_weak_key (odd_parity_of moment) ≡ false → DrawsMoment moment }
    ensures live { (g h : TheGen) (pair : ThePair) (s t : TheSpace) (moment : ℕ) (drawn : ℕ × TheGen) → good_draw g moment ≡ Some drawn → HasRoom s → HasRoom t
        → KeyExchanged (banks_with g h pair s t) sender_name receiver_name moment }
{}
