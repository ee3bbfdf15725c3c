// No code: the laws of the detectors, proved of the definitions that their promises cite. The theorems
// to read are in `demands`.
#![tactic(auto)]
