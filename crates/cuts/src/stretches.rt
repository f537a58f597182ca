// A circuit, and the summaries of some of its records.
use cases::circuit;

// Settings, room for 72 records with zeros behind the last, and how many there are: a case may ask for a stretch that goes on behind the last.
#[derive(Clone, Copy)]
pub struct Circuit {
    settings: [u8; 64],
    records: [u8; 3456],
    pub count: usize,
}

impl Circuit {
    // A circuit of the letters, by these settings.
    pub fn new(settings: [u8; 64], letters: &[u8]) -> Circuit {
        Circuit {
            settings,
            records: circuit::records(letters),
            count: letters.len(),
        }
    }

    // The records from the `a`-th on to before the `b`-th.
    fn between(&self, a: usize, b: usize) -> &[u8] {
        if a <= b && b <= 72 {
            &self.records[48 * a..48 * b]
        } else {
            &[]
        }
    }

    // The summary of these records, at the start of `out`, if there is one.
    pub fn put_summary(&self, a: usize, b: usize, out: &mut [u8]) {
        let _ = making::summary(&self.settings, a as u64, self.between(a, b), out, 0);
    }

    // The same into zeros.
    pub fn summary(&self, a: usize, b: usize) -> [u8; 1024] {
        let mut out = [0u8; 1024];
        self.put_summary(a, b, &mut out);
        out
    }

    // The three summaries of all the records, cut before the `a`-th and before the `b`-th interval.
    pub fn put_three(&self, a: usize, b: usize, out: &mut [u8]) {
        let cuts = [(0, a), (a, b), (b, self.count)];
        for ((from, to), summary) in cuts.into_iter().zip(out.chunks_exact_mut(1024)) {
            self.put_summary(from, to, summary);
        }
    }
}
