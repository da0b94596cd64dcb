// What torn writes leave, in words of the bytes.
ghost use Rattle.std.specs.Prelude.{List, ℕ, length};
ghost use Rattle.gt_disk.specs.TornWrites.{Reaches, BeginWithin, MayBe};

/// Writes that are torn one after another leave exactly this: any bytes in their ranges and past the end of the synced
/// file, its bytes elsewhere, and a length between that file's and the greatest since.
pub fn torn_writes()
    ensures no_more { (synced : List ℕ) (writes : List (ℕ × ℕ)) (c : List ℕ)
        → Reaches synced writes c → MayBe synced writes c }
    ensures no_less { (synced : List ℕ) (writes : List (ℕ × ℕ)) (c : List ℕ)
        → BeginWithin (length synced) writes → MayBe synced writes c → Reaches synced writes c }
{}
