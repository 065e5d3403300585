ghost use Rattle.std.specs.Prelude.{◌≡◌, ◌<◌, ◌^◌, Bool, true, IfOk, length};
ghost use Rattle.std.specs.List.{Contains, list_any};
ghost use Rattle.std.specs.List.Sorted.{IsStrictlySortedBy};
ghost use Rattle.tree_board.specs.Rows.{first_by};

use base_texts::NoMemory;

/// Some items in order, each once.
pub(crate) fn in_order<T: Ord + Drop>(mut items: Vec<T>) -> Result<Vec<T>, NoMemory>
    ensures strict { IfOk result (λ v. IsStrictlySortedBy T.cmp v.items) }
    ensures same { IfOk result (λ v. (p : T → Bool) → ((x y : T) → T.eq x y ≡ true → p x ≡ p y) →
        list_any p v.items ≡ list_any p items.items) }
    ensures from { IfOk result (λ v. (x : T) → Contains v.items x → Contains items.items x) }
{
    items.sort()?;
    items.dedup();
    Ok(items)
}

/// The place of an item among others that are in order; their number where it is not among them.
pub(crate) fn place_of<T: Ord>(items: &[T], item: &T) -> u32
    requires ascend { IsStrictlySortedBy T.cmp items.now }
    requires few { length items.now < 2 ^ 32 }
    ensures { result ≡ first_by T.cmp items.now item.now }
{
    match items.binary_search(item) {
        Ok(place) => place as u32,
        Err(_) => items.len() as u32,
    }
}
