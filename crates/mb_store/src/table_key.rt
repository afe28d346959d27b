// Keys in their tables.

use crate::{RowKey, TableName};
use std::cmp::Ordering;

// A key in its table.
#[derive(Debug, Drop)]
pub(crate) struct TableKey {
    pub table: TableName,
    pub key: RowKey,
}

impl PartialEq for TableKey {
    ghost use Rattle.mb_store.specs.Common.{eq_by_cmp, eq_by_cmp_equiv, partial_equiv_from_equiv};
    ghost use Rattle.mb_store.specs.TableKey.{table_key_cmp};
    ghost use Rattle.mb_store.specs.TableKey.{table_keys_total};

    ghost eq = { eq_by_cmp table_key_cmp };

    ghost laws = { partial_equiv_from_equiv (eq_by_cmp_equiv table_keys_total) };

    fn eq(&self, other: &Self) -> bool {
        self.cmp(other).is_eq()
    }
}

impl Eq for TableKey {
    ghost use Rattle.mb_store.specs.Common.{eq_by_cmp_equiv};
    ghost use Rattle.mb_store.specs.TableKey.{table_keys_total};

    ghost laws = { eq_by_cmp_equiv table_keys_total };
}

impl PartialOrd for TableKey {
    ghost use Rattle.std.specs.Prelude.{Some};
    ghost use Rattle.mb_store.specs.Common.{partial_order_from_total};
    ghost use Rattle.mb_store.specs.TableKey.{table_key_cmp};
    ghost use Rattle.mb_store.specs.TableKey.{table_keys_total};

    ghost partial_cmp = { λ x y. Some (table_key_cmp x y) };

    ghost laws = { partial_order_from_total table_keys_total };

    fn partial_cmp(&self, other: &Self) -> Option<Ordering> {
        Some(self.cmp(other))
    }
}

impl Ord for TableKey {
    ghost use Rattle.std.specs.Prelude.{refl};
    ghost use Rattle.mb_store.specs.TableKey.{table_key_cmp};
    ghost use Rattle.mb_store.specs.TableKey.{table_keys_total};

    ghost cmp = { table_key_cmp };

    ghost total = { table_keys_total };

    ghost matches_partial_cmp = { λ x y. refl };

    ghost matches_eq = { λ x y. refl };

    fn cmp(&self, other: &Self) -> Ordering {
        self.table
            .number()
            .cmp(&other.table.number())
            .then_with(|| self.key.compare(&other.key))
    }
}
