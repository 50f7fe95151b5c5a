//! What is answered: the counts of labels.
use cat_base::Text;
use std::marker::Model;

/// A label, and how many hits have it (Lucene: a `LabelAndValue`).
#[derive(Drop)]
pub struct FacetCount {
    count: usize,
    label: Text,
}

impl Model for FacetCount {
    ghost use Rattle.cat_model.specs.Facets as model;

    ghost Value = { model.Counted };

    ghost view = { λ c. record { count = c.count; label = c.label } };
}

impl FacetCount {
    ghost use Rattle.std.specs.Prelude.{◌≡◌};

    pub(crate) fn new(count: usize, label: Text) -> FacetCount
        ensures { result ≡ record { count = count; label = label } }
    {
        FacetCount { count, label }
    }

    /// How many hits have the label, at least 1.
    pub fn count(&self) -> usize
        ensures { result ≡ self.now.count }
    {
        self.count
    }

    /// The label.
    pub fn label(&self) -> &str
        ensures { result.now ≡ self.now.label }
    {
        self.label.as_str()
    }
}

/// How many hits have a label, how many different labels they have, and the first counts (Lucene: a `FacetResult`).
pub struct Facets {
    matching: usize,
    met: usize,
    counts: Vec<FacetCount>,
}

impl Model for Facets {
    ghost use Rattle.cat_model.specs.Facets as model;

    ghost Value = { model.Facets };

    ghost view = { λ f. record { matching = f.matching; met = f.met; counts = f.counts.items } };
}

impl Drop for Facets {
    fn drop(self) {
        let Facets {
            matching: _,
            met: _,
            counts,
        } = self;
        drop(counts);
    }
}

impl Facets {
    ghost use Rattle.std.specs.Prelude.{◌≡◌};

    pub(crate) fn new(matching: usize, met: usize, counts: Vec<FacetCount>) -> Facets
        ensures { result ≡ record { matching = matching; met = met; counts = counts.items } }
    {
        Facets {
            matching,
            met,
            counts,
        }
    }

    /// How many hits have a label in the dimension.
    pub fn matching(&self) -> usize
        ensures { result ≡ self.now.matching }
    {
        self.matching
    }

    /// How many different labels the hits have (`FacetResult.childCount`).
    pub fn met(&self) -> usize
        ensures { result ≡ self.now.met }
    {
        self.met
    }

    /// The first counts: the greatest come first, and ties go by the bytes of the labels (`FacetResult.labelValues`).
    pub fn counts(&self) -> &[FacetCount]
        ensures { result.now ≡ self.now.counts }
    {
        self.counts.as_slice()
    }
}
