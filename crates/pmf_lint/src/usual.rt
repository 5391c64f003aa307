//! Counts of records whose names are known by how they begin.

ghost use Rattle.std.specs.Prelude.{◌≡◌, ◌-◌, ◌<◌, ◌^◌, All, [], map, slice_index_or};
ghost use Rattle.pmf_query.specs.RecordNames.{known_names};
ghost use Rattle.pmf_lint.specs.Naming.{counting, names_in};

use crate::naming::Named;

/// Counts one more record of the known name of this index.
pub(crate) fn count_known(counts: &mut Vec<Named<'_>>, index: usize)
    requires names { names_in counts.old.items ≡ known_names }
    requires within { index < 13 }
    requires few { All (λ c. c.records < 2 ^ 64 - 1) counts.old.items }
    ensures { counts.new.items ≡ map (counting (slice_index_or known_names index [])) counts.old.items }
{
    let count = counts[index];
    counts[index] = Named {
        name: count.name,
        records: count.records + 1,
    };
}
