//! Files, each with the head of its reports.

/// A file, and the head of its reports behind the title.
#[derive(Clone, Copy)]
pub(crate) struct Given {
    pub(crate) file: &'static str,
    pub(crate) head: &'static str,
}

/// Each constraint decides for one input.
pub(crate) const CHAIN: Given = Given {
    file: "\t\t\tA\tB\tC\n\
        \t\t\tA\tB\tC\n\
        x\tp\t1\t\t1\t\n\
        \tq\t\t1\t\t\n\
        y\tr\t1\t\t\t1\n\
        \ts\t\t\t1\t\n",
    head: "constraints\t3\n\
        constraint\t1\tA\tA\n\
        constraint\t2\tB\tB\n\
        constraint\t3\tC\tC\n\
        inputs\t2\n\
        input\t1\tx\t2\n\
        class\t1.1\t0 1 0\tp\n\
        class\t1.2\t1 0 0\tq\n\
        input\t2\ty\t2\n\
        class\t2.1\t0 0 1\tr\n\
        class\t2.2\t0 1 0\ts\n",
};

/// Like codas that are repaired in unlike ways.
pub(crate) const UNLIKE: Given = Given {
    file: "\t\t\tNoCoda\tMax\tDep\n\
        \t\t\tNoCoda\tMax\tDep\n\
        pat\tpat\t1\t1\t0\t0\n\
        \tpa\t0\t0\t1\t0\n\
        \tpa.ti\t0\t0\t0\t1\n\
        tak\ttak\t0\t1\t0\t0\n\
        \tta\t1\t0\t1\t0\n\
        \tta.ki\t0\t0\t0\t1\n",
    head: "constraints\t3\n\
        constraint\t1\tNoCoda\tNoCoda\n\
        constraint\t2\tMax\tMax\n\
        constraint\t3\tDep\tDep\n\
        inputs\t2\n\
        input\t1\tpat\t3\n\
        class\t1.1\t1 0 0\tpat\n\
        class\t1.2\t0 1 0\tpa\n\
        class\t1.3\t0 0 1\tpa.ti\n\
        input\t2\ttak\t3\n\
        class\t2.1\t1 0 0\ttak\n\
        class\t2.2\t0 1 0\tta\n\
        class\t2.3\t0 0 1\tta.ki\n",
};

/// Onsets and codas that stay as they are.
pub(crate) const SYLLABLES: Given = Given {
    file: "\t\t\tOnset\tNoCoda\tMax\tDep\n\
        \t\t\tOns\tNoC\tMax\tDep\n\
        a\t.a.\t1\t1\t\t\t\n\
        \t.ta.\t\t\t\t\t1\n\
        \t<a>\t\t\t\t1\t\n\
        tat\t.tat.\t1\t\t1\t\t\n\
        \t.ta.ta.\t\t\t\t\t1\n\
        \t.ta.\t\t\t\t1\t\n",
    head: "constraints\t4\n\
        constraint\t1\tOns\tOnset\n\
        constraint\t2\tNoC\tNoCoda\n\
        constraint\t3\tMax\tMax\n\
        constraint\t4\tDep\tDep\n\
        inputs\t2\n\
        input\t1\ta\t3\n\
        class\t1.1\t1 0 0 0\t.a.\n\
        class\t1.2\t0 0 0 1\t.ta.\n\
        class\t1.3\t0 0 1 0\t<a>\n\
        input\t2\ttat\t3\n\
        class\t2.1\t0 1 0 0\t.tat.\n\
        class\t2.2\t0 0 0 1\t.ta.ta.\n\
        class\t2.3\t0 0 1 0\t.ta.\n",
};

/// What one condition leaves open, another decides.
pub(crate) const DEVOICING: Given = Given {
    file: "\t\t\tIdentOnset\tNoVoiced\tIdent\n\
        \t\t\tIdOns\tNV\tId\n\
        bed\tbed\t0\t0\t2\t0\n\
        \tbet\t1\t0\t1\t1\n\
        \tpet\t0\t1\t0\t2\n",
    head: "constraints\t3\n\
        constraint\t1\tIdOns\tIdentOnset\n\
        constraint\t2\tNV\tNoVoiced\n\
        constraint\t3\tId\tIdent\n\
        inputs\t1\n\
        input\t1\tbed\t3\n\
        class\t1.1\t0 2 0\tbed\n\
        class\t1.2\t0 1 1\tbet\n\
        class\t1.3\t1 0 2\tpet\n",
};

/// No candidate was counted.
pub(crate) const UNCOUNTED: Given = Given {
    file: "\t\t\tA\tB\n\
        \t\t\tA\tB\n\
        x\tp\t\t0\t1\n\
        \tq\t0\t1\t0\n",
    head: "constraints\t2\n\
        constraint\t1\tA\tA\n\
        constraint\t2\tB\tB\n\
        inputs\t1\n\
        input\t1\tx\t2\n\
        class\t1.1\t0 1\tp\n\
        class\t1.2\t1 0\tq\n",
};

/// One candidate, over which nothing need be ranked.
pub(crate) const SINGLE: Given = Given {
    file: "\t\t\tA\tB\tC\n\
        \t\t\tA\tB\tC\n\
        x\tp\t1\t0\t0\t0\n",
    head: "constraints\t3\n\
        constraint\t1\tA\tA\n\
        constraint\t2\tB\tB\n\
        constraint\t3\tC\tC\n\
        inputs\t1\n\
        input\t1\tx\t1\n\
        class\t1.1\t0 0 0\tp\n",
};

/// One faithfulness constraint frees both markedness constraints.
pub(crate) const BIASED: Given = Given {
    file: "\t\t\tM1\tM2\tF1\tF2\n\
        \t\t\tM1\tM2\tF1\tF2\n\
        x\tp\t1\t1\t0\t0\t0\n\
        \tq\t0\t0\t0\t1\t0\n\
        y\tr\t1\t0\t1\t0\t0\n\
        \ts\t0\t0\t0\t1\t1\n",
    head: "constraints\t4\n\
        constraint\t1\tM1\tM1\n\
        constraint\t2\tM2\tM2\n\
        constraint\t3\tF1\tF1\n\
        constraint\t4\tF2\tF2\n\
        inputs\t2\n\
        input\t1\tx\t2\n\
        class\t1.1\t1 0 0 0\tp\n\
        class\t1.2\t0 0 1 0\tq\n\
        input\t2\ty\t2\n\
        class\t2.1\t0 1 0 0\tr\n\
        class\t2.2\t0 0 1 1\ts\n",
};

/// One winner of two, in a spreadsheet's file.
pub(crate) const VOICING: Given = Given {
    file: "\t\t\t\"Ident, voice\"\tNoVoice\t\r\n\
        \t\t\tId\tNV\t\r\n\
        bad\tbad\t12\t\t2\t\r\n\
        \tbat\t3\t1\t1\t\r\n\
        \t\t\t\t\t\r\n\
        \r\n",
    head: "constraints\t2\n\
        constraint\t1\tId\tIdent, voice\n\
        constraint\t2\tNV\tNoVoice\n\
        inputs\t1\n\
        input\t1\tbad\t2\n\
        class\t1.1\t0 2\tbad\n\
        class\t1.2\t1 1\tbat\n",
};

/// The first of two equal counts wins, and an input without a count has no winner and no tableau.
pub(crate) const TIE: Given = Given {
    file: "\t\t\tA\tB\n\
        \t\t\tA\tB\n\
        x\tp\t0.5\t0\t1\n\
        \tq\t0.5\t1\t0\n\
        y\tr\t\t0\t0\n\
        \ts\t\t1\t0\n",
    head: "constraints\t2\n\
        constraint\t1\tA\tA\n\
        constraint\t2\tB\tB\n\
        inputs\t2\n\
        input\t1\tx\t2\n\
        class\t1.1\t0 1\tp\n\
        class\t1.2\t1 0\tq\n\
        input\t2\ty\t2\n\
        class\t2.1\t0 0\tr\n\
        class\t2.2\t1 0\ts\n",
};
