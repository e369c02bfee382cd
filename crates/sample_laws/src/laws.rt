//! The laws of samples: each function computes nothing, and what it ensures is a law.

ghost use Rattle.std.specs.Prelude.{◌≡◌, ◌+◌, ◌≤◌, ℕ, length, Ok};
ghost use Rattle.dir_tree.specs.tree.Trees.{most_entries};
ghost use Rattle.ldif_load.specs.load.DataFile.{loads};
ghost use Rattle.sample_input.specs.SampleFile.{sample_file};
ghost use Rattle.sample_laws.specs.SampleEntries.{sample_entries};

/// The data file of a sample (RFC 2849) loads for each number of persons with which a tree is not past its most entries, and
/// gives the entries of the sample: four, and one for each person.
pub fn the_file_of_a_sample_loads()
    ensures exact { (count : ℕ) → count + 4 ≤ most_entries → loads (sample_file count) ≡ Ok (sample_entries count) }
    ensures counted { (count : ℕ) → length (sample_entries count) ≡ count + 4 }
{}
